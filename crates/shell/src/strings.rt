use crate::input::answer_each;
use console::strings::{Tally, answer};
use std::io;

// Answers each line of standard input, and tells the tally.
pub(crate) fn strings(rt: &(impl Input + Print + AllocGlobal)) -> io::Result<()> {
    let heap = rt.alloc();
    let mut tally = Tally::new();
    answer_each(rt, |_, line| answer(heap, &mut tally, line))?;
    println!(rt; "  {tally}")
}
