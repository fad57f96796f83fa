// Why a call is refused: the numbers given back of docs/RULES.md, each with a name.
ghost use Rattle.std.specs.Prelude.{◌≡◌};
ghost use Rattle.checks.specs.Refusals.{number};

// 0 stands for none in what C is given, and is the number of none here.
#[derive(Clone, Copy, Debug, PartialEq, Eq)]
pub enum Refusal {
    NoPort = 1,
    WrongLength = 2,
    WideIdentifier = 3,
    LongFrame = 4,
    WrongSource = 5,
    NotClaimed = 6,
    PayloadLength = 7,
    NoAddress = 8,
    UnknownFunction = 9,
    NoPair = 10,
    ForeignPair = 11,
    WrongBody = 12,
    WrongMode = 13,
    NotCleared = 14,
    Cleared = 15,
    Full = 16,
    Absent = 17,
    WrongState = 18,
    ManySessions = 19,
    WrongPacket = 20,
    WrongSize = 21,
    WrongEntry = 22,
    UnknownParameter = 23,
    PortCount = 27,
    OutsidePlan = 28,
    TwoPaths = 29,
    TwicePaired = 30,
    FullTable = 31,
    WrongAddress = 32,
}

impl Refusal {
    pub fn number(self) -> u32
        ensures { result ≡ number self }
    {
        self as u32
    }
}
