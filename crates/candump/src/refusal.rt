// Why a line or a record is refused: the numbers of docs/RULES.md, "The bench log", each with a name.
ghost use Rattle.std.specs.Prelude.{◌≡◌};
ghost use Rattle.candump.specs.Refusals.{number};

#[derive(Clone, Copy, Debug, PartialEq, Eq)]
pub enum Refusal {
    NoPort = 1,
    NoRoom = 2,
    WideIdentifier = 3,
    LongFrame = 4,
    UnknownKind = 24,
    CutShort = 25,
    NoFrame = 26,
}

impl Refusal {
    pub fn number(self) -> u32
        ensures { result ≡ number self }
    {
        self as u32
    }
}
