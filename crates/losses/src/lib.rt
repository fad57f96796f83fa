// A counter of the messages lost to a full buffer, in one word that the caller lends. It stays at its last count.
#![tactic(auto, unfolding(crate::specs::Losses::held, crate::specs::Losses::one_more))]

ghost use Rattle.std.specs.Prelude.{◌≡◌, ◌≤◌};
ghost use Rattle.losses.specs.Losses.{most, one_more, held};

// The last count.
pub const MOST: u64 = 64255;

// How many words of a record a counter has.
pub const COUNTER_LENGTH: usize = 1;

// One more was lost.
pub fn count(counter: &mut u64)
    ensures { held counter.new ≡ one_more (held counter.old) }
{
    if *counter < MOST {
        *counter += 1;
    }
}

// The count begins anew.
pub fn reset(counter: &mut u64)
    ensures { held counter.new ≡ 0 }
{
    *counter = 0;
}

// How many were lost.
pub fn counted(counter: &u64) -> u32
    ensures { (result ≡ held counter.now) × (result ≤ most) }
{
    (*counter).min(MOST) as u32
}
