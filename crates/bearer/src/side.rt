ghost use Rattle.std.specs.Prelude.{◌≡◌};
ghost use Rattle.bearer.specs.Side.{other as opposite, highest_octet};
ghost use Rattle.bearer.specs.Meaning.{turn_is, is_for as waits_for};

// The two sides of a dialogue.
#[derive(Clone, Copy, PartialEq, Eq, Debug)]
pub enum Side {
    Mobile,
    Network,
}

impl Side {
    pub fn other(self) -> Side
        ensures { result ≡ opposite self }
    {
        match self {
            Side::Mobile => Side::Network,
            Side::Network => Side::Mobile,
        }
    }
}

// Closed, whose turn it is, or to whom a string is under way.
#[derive(Clone, Copy, PartialEq, Eq, Debug)]
pub enum Standing {
    Closed,
    Turn(Side),
    UnderWay(Side),
}

impl Standing {
    // Whether it is a side's turn.
    pub fn is_turn(self, side: Side) -> bool
        ensures { result ≡ turn_is side self }
    {
        self == Standing::Turn(side)
    }

    // Whether a string waits for a side.
    pub fn is_for(self, side: Side) -> bool
        ensures { result ≡ waits_for side self }
    {
        self == Standing::UnderWay(side)
    }
}

// The highest octet that a bearer carries.
#[derive(Clone, Copy, PartialEq, Eq, Debug)]
pub enum Highest {
    Seven = 127,
    Eight = 255,
}

impl Highest {
    pub fn octet(self) -> u8
        ensures { result ≡ highest_octet self }
    {
        self as u8
    }
}
