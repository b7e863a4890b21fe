use std::error::Error;
use std::fmt;
use std::str::FromStr;

// A word that names no coding.
#[derive(Clone, Copy, PartialEq, Eq, Debug)]
pub struct NoSuchCoding;

impl fmt::Display for NoSuchCoding {
    ghost use Rattle.std.specs.Prelude.{Some, codes};

    ghost output = { λ _. Some (codes "no such coding") };

    fn fmt<W: fmt::Write>(&self, f: &mut fmt::Formatter<W>) -> fmt::Result {
        f.write_str("no such coding")
    }
}

impl Error for NoSuchCoding {}

// The codings that the program knows.
#[derive(Clone, Copy, PartialEq, Eq, Debug)]
pub enum CodingName {
    Hex,
    Septets,
}

impl FromStr for CodingName {
    type Err = NoSuchCoding;

    ghost use Rattle.std.specs.Prelude.{◌≡◌};
    ghost use Rattle.std.specs.Option.{ok_or};
    ghost use Rattle.input.specs.Named.{named};
    ghost use Rattle.input.specs.Pile.{codings};

    ghost from_str_gives = { λ word r. r ≡ ok_or (named codings word) (record {}) };

    fn from_str(word: &str) -> Result<CodingName, NoSuchCoding> {
        match word {
            "hex" => Ok(CodingName::Hex),
            "septets" => Ok(CodingName::Septets),
            _ => Err(NoSuchCoding),
        }
    }
}

// What is piled on a bearer: nothing, a coding, or two of them, the lower one first.
#[derive(Clone, Copy, PartialEq, Eq, Debug)]
pub enum Pile {
    Bare,
    One(CodingName),
    Two(CodingName, CodingName),
}

// How long the longest name of a pile is, `septets,septets`. A longer word names none, and its comma is not looked for.
const LONGEST: usize = 15;

// The codings of a pile, joined by a comma.
impl FromStr for Pile {
    type Err = NoSuchCoding;

    ghost use Rattle.std.specs.Prelude.{◌≡◌};
    ghost use Rattle.std.specs.Option.{ok_or};
    ghost use Rattle.input.specs.Named.{named};
    ghost use Rattle.input.specs.Pile.{piles};

    ghost from_str_gives = { λ words r. r ≡ ok_or (named piles words) (record {}) };

    fn from_str(words: &str) -> Result<Pile, NoSuchCoding> {
        if words.len() > LONGEST {
            return Err(NoSuchCoding);
        }
        match words.split_once(',') {
            None => Ok(Pile::One(words.parse()?)),
            Some((low, high)) => Ok(Pile::Two(low.parse()?, high.parse()?)),
        }
    }
}
