use crate::log::log;
use crate::options::{Form, Options, asked_by};
use crate::strings::strings;
use console::command::{Command, HELP};
use direct::DirectLine;
use gateway::row::Row;
use std::process::ExitCode;
use std::rt::Env;
use std::{env, io};

fn log_with(rt: &(impl Input + Print + AllocGlobal), asked: Options) -> io::Result<()> {
    match asked.form {
        Form::Direct => log::<DirectLine>(rt, asked),
        Form::Gateway => log::<Row>(rt, asked),
    }
}

fn commanded(rt: &(impl Env + Input + Print + AllocGlobal)) -> anyhow::Result<()> {
    let words: Vec<String> = env::args(rt)?.skip(1).collect(rt.alloc())?;
    match Command::asked(words.as_slice())? {
        Command::Strings => strings(rt)?,
        Command::Help => print!(rt; "{HELP}")?,
        Command::Log => log_with(rt, asked_by(words.as_slice())?)?,
    }
    Ok(())
}

// Does what the arguments ask for. What is wrong is told on the error stream, and by the exit status.
pub fn run(rt: &(impl Env + Input + Print + Eprint + AllocGlobal)) -> ExitCode {
    match commanded(rt) {
        Ok(()) => ExitCode::SUCCESS,
        Err(error) => {
            let _ = eprintln!(rt; "kurbelna: {error}");
            ExitCode::FAILURE
        }
    }
}
