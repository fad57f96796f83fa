// The functions of a network message, each by the number that stands for it in the first byte.
#![tactic(auto, unfolding(crate::specs::Decoding::is_known, entries::specs::Entries::listed))]

ghost use Rattle.std.specs.Prelude.{◌≡◌};
ghost use Rattle.network_message.specs.Functions.{Listed, number_of};

use checks::Refusal;

#[derive(Clone, Copy, Debug, PartialEq, Eq)]
pub enum Function {
    Request = 0,
    Add = 2,
    Delete = 3,
    Clear = 4,
    Create = 6,
    AddByName = 7,
    AddressList = 64,
    Parameter = 128,
    Reset = 130,
    PairParameter = 131,
    PairReset = 133,
}

impl Function {
    // The number that stands for it.
    pub fn number(self) -> u8
        ensures { result ≡ number_of self }
    {
        self as u8
    }
}

impl TryFrom<u8> for Function {
    type Error = Refusal;

    ghost try_from_gives = { Listed };

    fn try_from(number: u8) -> Result<Function, Refusal> {
        match number {
            0 => Ok(Function::Request),
            2 => Ok(Function::Add),
            3 => Ok(Function::Delete),
            4 => Ok(Function::Clear),
            6 => Ok(Function::Create),
            7 => Ok(Function::AddByName),
            64 => Ok(Function::AddressList),
            128 => Ok(Function::Parameter),
            130 => Ok(Function::Reset),
            131 => Ok(Function::PairParameter),
            133 => Ok(Function::PairReset),
            _ => Err(Refusal::UnknownFunction),
        }
    }
}
