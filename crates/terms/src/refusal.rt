ghost use Rattle.std.specs.Prelude.{◌≡◌};
ghost use Rattle.terms.specs.Refusal.{refusal_number, refusal_numbered};

use std::fmt;

// Why a call was refused. A refused call altered nothing. Each has its published number.
#[derive(Clone, Copy, PartialEq, Eq, Debug)]
pub enum Refusal {
    // making an end
    ServiceCode = 1,
    LongestString = 2,
    Limits = 3,
    // send
    Ending = 4,
    Msisdn = 5,
    NoAddress = 6,
    DatagramTooLong = 7,
    TooManySegments = 8,
    BatchFull = 9,
    OutboxFull = 10,
    OutboxOctets = 11,
    // step and release
    OtherLongest = 12,
    LowOctetsOnly = 13,
    Unread = 14,
    // read
    NothingUnread = 15,
    ReadBuffer = 16,
    // release
    NoDialogue = 17,
    // writing, encoding and decoding
    Buffer = 20,
    // a bearer
    AlreadyOpen = 21,
    OpeningCode = 22,
    StringTooLong = 23,
    OctetTooHigh = 24,
    NumbersSpent = 25,
    NotOpen = 26,
    NotYourTurn = 27,
    NothingForYou = 28,
    RawTooLong = 29,
}

impl Refusal {
    // The published number.
    pub fn number(self) -> u8
        ensures table { result ≡ refusal_number self }
        ensures back { refusal_numbered result ≡ self }
    {
        self as u8
    }

    fn words(self) -> &'static str {
        match self {
            Refusal::ServiceCode =>
                "a mobile end has a service code of two to four digits, a network end none",
            Refusal::LongestString => "the longest string of an end is 40 to 152 octets",
            Refusal::Limits => "the rest limit and the idle limit are 1 to 60",
            Refusal::Ending => "the end is ending its dialogue and takes no datagram",
            Refusal::Msisdn => "a number is 1 to 20 of the characters 0 to 9, *, #, a, b, c",
            Refusal::NoAddress =>
                "a datagram without address answers Data of the same dialogue, and none came",
            Refusal::DatagramTooLong => "a datagram has at most 1024 octets",
            Refusal::TooManySegments => "a datagram is cut into at most 32 segments",
            Refusal::BatchFull => "a batch has at most 10000 datagrams",
            Refusal::OutboxFull => "at most eight datagrams wait in an outbox",
            Refusal::OutboxOctets => "an outbox holds at most 2048 octets",
            Refusal::OtherLongest =>
                "the bearer's longest string is not the one that the end was made for",
            Refusal::LowOctetsOnly => "the bearer does not carry octets up to 255",
            Refusal::Unread =>
                "a datagram is still unread: read it before the next string is taken",
            Refusal::NothingUnread => "no datagram is unread",
            Refusal::ReadBuffer => "the buffer does not hold the unread datagram",
            Refusal::NoDialogue => "the end is in no dialogue",
            Refusal::Buffer => "the buffer does not hold the result",
            Refusal::AlreadyOpen => "a dialogue is already open",
            Refusal::OpeningCode =>
                "a mobile opens with a service code of two to four digits, a network with none",
            Refusal::StringTooLong => "the string is longer than the bearer carries",
            Refusal::OctetTooHigh => "an octet is higher than the bearer carries",
            Refusal::NumbersSpent => "the last dialogue number is in use: there is no next one",
            Refusal::NotOpen => "no such dialogue is open",
            Refusal::NotYourTurn => "the other side has the turn, or a string is under way",
            Refusal::NothingForYou => "no string waits for this side",
            Refusal::RawTooLong => "the raw string is longer than the bearer holds",
        }
    }
}

impl fmt::Display for Refusal {
    fn fmt<W: fmt::Write>(&self, f: &mut fmt::Formatter<W>) -> fmt::Result {
        let number = self.number();
        let words = self.words();
        write!(f, "refused {number}: {words}")
    }
}
