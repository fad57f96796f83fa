// The lists of the pairs.
ghost use Rattle.std.specs.Prelude.{◌≤◌, IfSome};

use filter::Reason;
use plan_shape::{BLOCK_SIZE, LISTS_LENGTH, PAIRS, PORTS};
use plan_text::{Finding, LIST, List, Mode, Wrong};

// As the proved call takes them: a block for each pair, in order of unit, From and To.
#[derive(Drop)]
pub struct Lists([u64; LISTS_LENGTH]);

// Where a pair's block begins.
fn start(unit: u32, from: u32, to: u32) -> Option<usize>
    ensures { IfSome result (λ at. at ≤ 17592186044416) }
{
    let unit = (unit as usize).checked_sub(1)?;
    let from = (from as usize).checked_sub(1)?;
    let to = (to as usize).checked_sub(1)?;
    let first = PAIRS * unit + (PORTS - 1) * from;
    let pair = if to <= from {
        first + to
    } else {
        first + (to - 1)
    };
    Some(BLOCK_SIZE * pair)
}

impl Lists {
    pub(crate) fn new() -> Lists {
        Lists([0; LISTS_LENGTH])
    }

    pub(crate) fn words(&self) -> &[u64] {
        &self.0
    }

    // Why a PGN crosses a pair or not.
    pub fn reason(&self, unit: u32, from: u32, to: u32, pgn: u32) -> Reason {
        let Some(at) = start(unit, from, to) else {
            return Reason::NotAsked;
        };
        let end = at + BLOCK_SIZE;
        if LISTS_LENGTH < end {
            return Reason::NotAsked;
        }
        filter::reason_by_list(&self.0[at..end], pgn)
    }

    // A pair's list, unless it has one or lists what is no PGN.
    pub(crate) fn add(
        &mut self,
        unit: u32,
        from: u32,
        to: u32,
        mode: Mode,
        list: &List,
    ) -> Result<(), Finding> {
        let at = start(unit, from, to).ok_or(Wrong::NoUnit.at(0))?;
        let end = at + BLOCK_SIZE;
        if LISTS_LENGTH < end {
            return Err(Wrong::NoUnit.at(0));
        }
        let block = &mut self.0[at..end];
        if block[filter::MODE] != filter::CLEARED {
            return Err(Wrong::KnownPair { from, to }.at(1));
        }
        let pgns = list.pgns();
        if let Some(i) = pgns.iter().position(|pgn| !identifier::is_pgn(*pgn)) {
            return Err(Wrong::NoPgn.at(LIST + i));
        }
        block[filter::MODE] = match mode {
            Mode::Block => filter::BLOCK,
            Mode::Pass => filter::PASS,
        };
        block[filter::COUNT] = pgns.len() as u64;
        for (word, pgn) in block[filter::LIST..].iter_mut().zip(pgns) {
            *word = u64::from(*pgn);
        }
        Ok(())
    }
}
