// The PGNs that a pair's line lists.
ghost use Rattle.std.specs.Prelude.{◌≤◌};
ghost use Rattle.plan_text.specs.declared.list.TheConstants.{LONGEST};

use crate::LIST;
use crate::words::{Words, pgn};
use crate::wrong::{Finding, Wrong};

// The most that one has.
const LONGEST: usize = 32;

#[derive(Clone, Copy)]
pub struct List {
    pgns: [u32; LONGEST],
    len: usize,
    ghost in_range: { len ≤ LONGEST },
}

impl List {
    // The list at the end of a pair's line.
    pub(crate) fn parse(line: &[u8]) -> Result<List, Finding> {
        if Words(line).nth(LIST + LONGEST).is_some() {
            return Err(Wrong::ManyPgns.at(LIST + LONGEST));
        }
        let mut list = List {
            pgns: [0; LONGEST],
            len: 0,
        };
        for (place, word) in (LIST..LIST + LONGEST).zip(Words(line).skip(LIST)) {
            list.push(pgn(word).ok_or(Wrong::NoHex.at(place))?);
        }
        Ok(list)
    }

    fn push(&mut self, pgn: u32) {
        if self.len < LONGEST {
            self.pgns[self.len] = pgn;
            self.len += 1;
        }
    }

    pub fn pgns(&self) -> &[u32] {
        &self.pgns[..self.len]
    }
}
