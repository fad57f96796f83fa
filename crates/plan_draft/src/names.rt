// How many segments there are, or units, and their names.
ghost use Rattle.std.specs.Prelude.{◌≤◌};
ghost use Rattle.plan_text.specs.declared.TheConstants.{LONGEST_NAME};

use line_parts::Line;
use plan_text::{LONGEST_NAME, Wrong};

// The most segments, and units.
const MOST: usize = 16;

// A name; one that is empty is none.
#[derive(Clone, Copy)]
struct Name {
    bytes: [u8; LONGEST_NAME],
    len: usize,
    ghost in_range: { len ≤ LONGEST_NAME },
}

impl Name {
    fn of(name: &[u8]) -> Name {
        let mut bytes = [0; LONGEST_NAME];
        let len = name.len().min(LONGEST_NAME);
        bytes[..len].copy_from_slice(&name[..len]);
        Name { bytes, len }
    }

    fn bytes(&self) -> &[u8] {
        &self.bytes[..self.len]
    }
}

// Numbered from 1 as they come.
#[derive(Drop)]
pub struct Names {
    count: u32,
    names: [Name; MOST],
}

impl Names {
    pub fn new() -> Names {
        Names {
            count: 0,
            names: [Name::of(b""); MOST],
        }
    }

    // How many there are, which is the number of the last.
    pub fn count(&self) -> u32 {
        self.count
    }

    // One more, with its number and its name: `many` is wrong where there is no room, and `next`, of the number that it has to have, where that is another.
    pub(crate) fn add<F: FnOnce(u32) -> Wrong>(
        &mut self,
        number: u32,
        name: &[u8],
        many: Wrong,
        next: F,
    ) -> Result<(), Wrong>
        requires { F.IsAlwaysCallable next }
    {
        let place = self.count as usize;
        if MOST <= place {
            return Err(many);
        }
        let wanted = self.count + 1;
        if number != wanted {
            return Err(next(wanted));
        }
        self.names[place] = Name::of(name);
        self.count = wanted;
        Ok(())
    }

    // One more without a name, if there is room.
    pub(crate) fn add_unnamed(&mut self) {
        if (self.count as usize) < MOST {
            self.count += 1;
        }
    }

    // A name, by its number.
    fn name(&self, number: u32) -> &[u8] {
        match self.names.get((number as usize).wrapping_sub(1)) {
            Some(name) => name.bytes(),
            None => b"",
        }
    }

    // The one that has this name.
    pub(crate) fn find(&self, name: &[u8]) -> Result<u32, Wrong> {
        if name.is_empty() {
            return Err(Wrong::NoSegment);
        }
        let mut found = (1..=self.count).filter(|number| self.name(*number) == name);
        let number = found.next().ok_or(Wrong::NoSegment)?;
        match found.next() {
            None => Ok(number),
            Some(_) => Err(Wrong::TwoNames),
        }
    }

    // A number and, behind a blank, its name, if it has one.
    pub fn tell(&self, number: u32, out: &mut Line) {
        out.put(number);
        let name = self.name(number);
        if !name.is_empty() {
            out.push(b" ");
            out.push(name);
        }
    }
}
