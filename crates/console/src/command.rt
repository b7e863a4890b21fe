ghost use Rattle.std.specs.Prelude.{◌≡◌, map, string_bytes};
ghost use Rattle.console.specs.Command.{command_asked};

use std::error::Error;
use std::fmt;
use std::str::FromStr;

// What the program is asked to do.
#[derive(Clone, Copy, PartialEq, Eq, Debug)]
pub enum Command {
    Strings,
    Log,
    Help,
}

// Why the arguments are no command.
#[derive(Clone, Copy, PartialEq, Eq, Debug)]
pub enum Misuse {
    NoCommand,
    NoSuchCommand,
    WordsBehind,
    LogWords,
}

// The command of a name.
impl FromStr for Command {
    type Err = Misuse;

    ghost use Rattle.std.specs.Prelude.{◌≡◌};
    ghost use Rattle.std.specs.Option.{ok_or};
    ghost use Rattle.console.specs.declared.command.Misuse.TheVariants.{NoSuchCommand};
    ghost use Rattle.console.specs.Command.{command_named};

    ghost from_str_gives = { λ name r. r ≡ ok_or (command_named name) NoSuchCommand };

    fn from_str(name: &str) -> Result<Command, Misuse> {
        match name {
            "strings" => Ok(Command::Strings),
            "log" => Ok(Command::Log),
            "help" => Ok(Command::Help),
            _ => Err(Misuse::NoSuchCommand),
        }
    }
}

impl Command {
    // The command that the arguments ask for; the program's own name is none of them. A command stands alone, but a log takes words of its own.
    pub fn asked(words: &[String]) -> Result<Command, Misuse>
        ensures { result ≡ command_asked (map string_bytes words.now) }
    {
        let (name, more) = words.split_first().ok_or(Misuse::NoCommand)?;
        let command = name.as_str().parse()?;
        if command != Command::Log && !more.is_empty() {
            return Err(Misuse::WordsBehind);
        }
        Ok(command)
    }
}

impl fmt::Display for Misuse {
    fn fmt<W: fmt::Write>(&self, f: &mut fmt::Formatter<W>) -> fmt::Result {
        let words = match self {
            Misuse::NoCommand => "no command given",
            Misuse::NoSuchCommand => "no such command",
            Misuse::WordsBehind => "the command takes no words behind it",
            Misuse::LogWords => "log takes [direct|gateway] [highest=127|255] [latest=N]",
        };
        write!(f, "{words}; `kurbelna help` tells the commands")
    }
}

impl Error for Misuse {}

// What `help` writes.
pub const HELP: &str = "kurbelna COMMAND

kurbelna strings
  Reads strings from standard input, one a line in hex, and tells the PDU that each one holds, or its fault.
  Capital and small digits, spaces between octets; - is the empty string; lines that begin with # are passed over.
  Example: echo 04 04 0A 00 00 01 06 05 04 23 F1 C0 00 6F 6B | kurbelna strings

kurbelna log [direct|gateway] [highest=N] [latest=N]
  Reads a gateway's log from standard input, one entry a line, and tells what each string is. Entries: mobile TEXT, network TEXT,
  mobile close, network close, lose. TEXT is the gateway's line or, at direct, the raw USSD string in hex.
  Without words: gateway, highest octet 255, latest dialogue number 0.
  Example: printf 'mobile 2A2331322A0623\\nnetwork 06\\nlose\\n' | kurbelna log direct

kurbelna help
  Writes this text.
  Example: kurbelna help

Lines that begin in column one are results, one for each string. Lines that are indented explain the result above them.
  data more=0 to=9201 from=49152 piece=- user=8:6F6B
      Data: more to send 0 or 1, destination and source port, the piece, and the user octets with their place.
      A piece is reference/count/sequence, or - where the datagram was not cut.
  data_long more=1 address=ipv4:10.0.0.1 to=9201 from=49152 piece=0/2/1 user=18:6F6B
      Data_Long: the same with an address, which is ipv4:, ipv6: or msisdn: and then its text.
  rr
      RR: ready to receive.
  error code=1
      Error: 0 unknown, 1 protocol error, 2 version, 3 external addressing not supported.
  rd code=3
      RD, a release: 0 unknown, 1 timer, 2 idle, 3 user.
  fault cause=45 place=6 layer=header
      The string is no PDU. The place is the offset of the first offending octet. Causes: 41 empty string, 42 no such
      type or code, or more to send in RR, Error or RD, 43 version, 44 address field, 45 header, 46 too few or too
      many octets in RR, Error or RD.
  refused input line 7: not hex
      The line holds no string: not hex, odd count of hex digits, or above 160 octets; in a log, no such entry.
  dialogue=1 code=12 rr
      In a log: the number and the service code (- for none) as they stand after the entry, and what the other side took; closed; lost;
      or refused and the number of the refusal. A garbled string is fault cause=40 place=0 layer=bearer.
";
