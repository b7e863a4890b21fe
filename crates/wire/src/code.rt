ghost use Rattle.std.specs.Prelude.{◌≡◌};
ghost use Rattle.wire.specs.NoSuchNumber.{named};
ghost use Rattle.wire.specs.Code.{error_number, error_numbered, release_number, release_numbered};

use crate::no_such_number::NoSuchNumber;
use std::fmt;

// Why a string could not be taken, as an Error PDU tells it.
#[derive(Clone, Copy, PartialEq, Eq, Debug)]
pub enum ErrorCode {
    Unknown = 0,
    Protocol = 1,
    Version = 2,
    Addressing = 3,
}

impl ErrorCode {
    pub fn number(self) -> u8
        ensures { result ≡ error_number self }
    {
        self as u8
    }
}

impl TryFrom<u8> for ErrorCode {
    type Error = NoSuchNumber;

    ghost try_from_gives = { λ n r. r ≡ named (error_numbered n) };

    fn try_from(number: u8) -> Result<ErrorCode, NoSuchNumber> {
        match number {
            0 => Ok(ErrorCode::Unknown),
            1 => Ok(ErrorCode::Protocol),
            2 => Ok(ErrorCode::Version),
            3 => Ok(ErrorCode::Addressing),
            _ => Err(NoSuchNumber),
        }
    }
}

impl fmt::Display for ErrorCode {
    ghost use Rattle.std.specs.Prelude.{Some};
    ghost use Rattle.wire.specs.Code.{error_name};

    ghost output = { λ code. Some (error_name code) };

    fn fmt<W: fmt::Write>(&self, f: &mut fmt::Formatter<W>) -> fmt::Result {
        f.write_str(match self {
            ErrorCode::Unknown => "unknown",
            ErrorCode::Protocol => "protocol error",
            ErrorCode::Version => "version",
            ErrorCode::Addressing => "external addressing not supported",
        })
    }
}

// Why a dialogue is released, as an RD PDU tells it. It stands beside ErrorCode, which has the same shape: one text for both would need a
// trait with two tables, and be no plainer.
#[derive(Clone, Copy, PartialEq, Eq, Debug)]
pub enum ReleaseCode {
    Unknown = 0,
    Timer = 1,
    Idle = 2,
    User = 3,
}

impl ReleaseCode {
    pub fn number(self) -> u8
        ensures { result ≡ release_number self }
    {
        self as u8
    }
}

impl TryFrom<u8> for ReleaseCode {
    type Error = NoSuchNumber;

    ghost try_from_gives = { λ n r. r ≡ named (release_numbered n) };

    fn try_from(number: u8) -> Result<ReleaseCode, NoSuchNumber> {
        match number {
            0 => Ok(ReleaseCode::Unknown),
            1 => Ok(ReleaseCode::Timer),
            2 => Ok(ReleaseCode::Idle),
            3 => Ok(ReleaseCode::User),
            _ => Err(NoSuchNumber),
        }
    }
}

impl fmt::Display for ReleaseCode {
    ghost use Rattle.std.specs.Prelude.{Some};
    ghost use Rattle.wire.specs.Code.{release_name};

    ghost output = { λ code. Some (release_name code) };

    fn fmt<W: fmt::Write>(&self, f: &mut fmt::Formatter<W>) -> fmt::Result {
        f.write_str(match self {
            ReleaseCode::Unknown => "unknown",
            ReleaseCode::Timer => "timer",
            ReleaseCode::Idle => "idle",
            ReleaseCode::User => "user",
        })
    }
}
