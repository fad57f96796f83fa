// The unit itself: its claim state, its addresses and its NAME, which are the record's first words; and the frames that it sends.
#![tactic(auto)]

mod words;

ghost use Rattle.std.specs.Prelude.{◌≡◌, ◌≤◌};
ghost use Rattle.unit.specs.Count.{count_of, Counting};
ghost use Rattle.unit.specs.Model.{claim_from, record_length};
ghost use Rattle.unit.specs.Own.{is_unstarted, is_claiming, start_checks, holds_address, is_own, consumes, fresh_unit, moved, claim_frame, cannot_claim_frame, request_answer, is_claimed, claim_word};
ghost use Rattle.checks.specs.Checks.{first};
ghost use Rattle.checks.specs.Refusals.{number_in};
ghost use Rattle.unit.specs.PowerOn.{PoweringOn};

use checks::Refusal;
use queue::Frame;
pub use words::{ports_of, read_unit, store_claim, store_unit};

// The address of a unit that has none.
pub const NO_ADDRESS: u8 = 254;

// How far the unit's own address claim is.
#[derive(Clone, Copy, PartialEq, Eq, Debug)]
pub enum Claim {
    Unstarted,
    Claiming,
    Claimed,
    Lost,
}

#[derive(Clone, Copy, PartialEq, Eq, Debug)]
pub struct Unit {
    pub claim: Claim,
    pub address: u8,
    pub preferred: u32,
    pub name: u64,
    pub ports: u32,
}

impl Claim {
    // The state that a word stands for.
    pub fn from_word(word: u64) -> Claim
        ensures { result ≡ claim_from word }
    {
        match word {
            0 => Claim::Unstarted,
            1 => Claim::Claiming,
            2 => Claim::Claimed,
            _ => Claim::Lost,
        }
    }

    // The word that stands for a state.
    pub fn word(self) -> u64
        ensures { result ≡ claim_word self }
    {
        self as u64
    }

    pub fn is_unstarted(self) -> bool
        ensures { result ≡ is_unstarted self }
    {
        self == Claim::Unstarted
    }

    pub fn is_claiming(self) -> bool
        ensures { result ≡ is_claiming self }
    {
        self == Claim::Claiming
    }

    pub fn is_claimed(self) -> bool
        ensures { result ≡ is_claimed self }
    {
        self == Claim::Claimed
    }

    // Whether the unit has an address: Claiming or Claimed.
    pub fn holds_address(self) -> bool
        ensures { result ≡ holds_address self }
    {
        matches!(self, Claim::Claiming | Claim::Claimed)
    }
}

impl Unit {
    // The number of ports where no other is chosen at power-on, and the fewest and the most that can be.
    pub const PORTS: u32 = 4;

    pub const FEWEST_PORTS: u32 = 2;

    pub const MOST_PORTS: u32 = 8;

    pub const LIST_SIZE: usize = pgn_list::LIST_SIZE;

    pub const QUEUE_SIZE: usize = queue::SIZE;

    // Where the record's regions begin: the unit's own words, the address table, a queue for each port; then a filter for each pair, in order of From, then To,
    // and a counter of losses for each, with the general one behind them.
    pub const TABLE_AT: usize = 5;

    pub const QUEUES_AT: usize = Self::TABLE_AT + addresses::TABLE_LENGTH;

    // The record's length with four ports.
    pub const RECORD_LENGTH: usize = Self::QUEUES_AT
        + queue::BLOCK_LENGTH * 4
        + filter::BLOCK_SIZE * 12
        + losses::COUNTER_LENGTH * 13;

    // The record's length, worked out.
    fn regions_length(ports: usize) -> usize
        requires { (1 ≤ ports) × (ports ≤ 8) }
        ensures { result ≡ record_length ports }
    {
        let pairs = ports * (ports - 1);
        Self::QUEUES_AT
            + queue::BLOCK_LENGTH * ports
            + filter::BLOCK_SIZE * pairs
            + losses::COUNTER_LENGTH * (pairs + 1)
    }

    // The record's length. Each arm is a constant, so that the compiler makes a table of them: every call of the unit asks.
    pub fn record_length(ports: usize) -> usize
        requires { (1 ≤ ports) × (ports ≤ 8) }
        ensures { result ≡ record_length ports }
    {
        match ports {
            2 => Self::regions_length(2),
            3 => Self::regions_length(3),
            4 => Self::regions_length(4),
            5 => Self::regions_length(5),
            6 => Self::regions_length(6),
            7 => Self::regions_length(7),
            8 => Self::regions_length(8),
            _ => Self::regions_length(ports),
        }
    }

    // The number of ports of a unit that was given a count.
    pub fn count_of(count: u64) -> u32
        ensures { Counting (count_of count) result }
    {
        if count < Self::FEWEST_PORTS as u64 || (Self::MOST_PORTS as u64) < count {
            return Self::PORTS;
        }
        count as u32
    }

    // The unit as power-on makes it.
    pub fn fresh(name: u64, preferred: u32, ports: u32) -> Unit
        ensures { result ≡ fresh_unit name preferred ports }
    {
        Unit {
            claim: Claim::Unstarted,
            address: NO_ADDRESS,
            preferred,
            name,
            ports,
        }
    }

    // Power-on with a number of ports: the record becomes that of a fresh unit, of four ports where it can't have so many, which is told as `PortCount`.
    // Refused with `WrongLength` where it is not of its length.
    pub fn power_on_ports(
        words: &mut [u64],
        name: u64,
        preferred: u32,
        count: u32,
    ) -> Result<(), Refusal>
        ensures { PoweringOn count words.old words.new name preferred (number_in result) }
    {
        let ports = Unit::count_of(count as u64);
        if words.len() != Unit::record_length(ports as usize) {
            return Err(Refusal::WrongLength);
        }
        words.fill(0);
        let unit = Unit::fresh(name, preferred, ports);
        words::store_unit(words, unit);
        if ports != count {
            return Err(Refusal::PortCount);
        }
        Ok(())
    }

    // Power-on with four ports.
    pub fn power_on(words: &mut [u64], name: u64, preferred: u32) -> Result<(), Refusal>
        ensures { PoweringOn 4 words.old words.new name preferred (number_in result) }
    {
        Unit::power_on_ports(words, name, preferred, Self::PORTS)
    }

    // The unit in another claim state, with another address.
    pub fn moved(self, claim: Claim, address: u8) -> Unit
        ensures { result ≡ moved self claim address }
    {
        Unit {
            claim,
            address,
            ..self
        }
    }

    // Whether the unit may start: of its state, and then of its preferred address.
    pub fn check_start(self) -> Result<(), Refusal>
        ensures { number_in result ≡ first (start_checks self) }
    {
        if !self.claim.is_unstarted() {
            return Err(Refusal::WrongState);
        }
        if 253 < self.preferred {
            return Err(Refusal::NoAddress);
        }
        Ok(())
    }

    // Whether an address is the unit's.
    pub fn is_own(self, address: u32) -> bool
        ensures { result ≡ is_own self address }
    {
        self.claim.holds_address() && address == self.address as u32
    }

    // Whether a frame is for the unit (rule 1).
    pub fn consumes(self, id: u32) -> bool
        ensures { result ≡ consumes self id }
    {
        identifier::has_destination(id) && self.is_own(identifier::ps(id))
    }

    // The frame that claims the unit's address.
    pub fn claim_frame(self) -> Frame
        ensures { result ≡ claim_frame self }
    {
        Frame {
            id: 0x18EEFF00 + self.address as u32,
            len: 8,
            bytes: self.name,
        }
    }

    // The frame that says that the unit has no address.
    pub fn cannot_claim_frame(self) -> Frame
        ensures { result ≡ cannot_claim_frame self }
    {
        Frame {
            id: 0x18EEFFFE,
            len: 8,
            bytes: self.name,
        }
    }

    // The answer to a request for address claimed.
    pub fn request_answer(self) -> Option<Frame>
        ensures { result ≡ request_answer self self.claim }
    {
        match self.claim {
            Claim::Unstarted => None,
            Claim::Claiming | Claim::Claimed => Some(self.claim_frame()),
            Claim::Lost => Some(self.cannot_claim_frame()),
        }
    }
}
