// A list of different PGNs in rising order, in 32 lent words, its first n in use: a search in it by halving, a PGN put where
// it belongs. Each does what it says to any words, in order or not.
#![tactic(auto)]

ghost use Rattle.std.specs.Prelude.{◌≡◌, ◌+◌, ◌≤◌, ◌<◌, length, take};
ghost use Rattle.pgn_list.specs.PgnList.{list_size};
ghost use Rattle.sorted_list.specs.SortedList.{Finding, put_one, fitted};
ghost use Rattle.sorted_list.specs.Steps.{MakingRoom};

// What a search tells: whether it found the PGN, and at how many places it looked.
#[derive(Clone, Copy, Debug, PartialEq, Eq)]
pub struct Probed {
    pub found: bool,
    pub probes: u32,
}

// `by` where y is below x, else 0: a number, so that no jump hangs on it, which would be guessed wrong every other time.
fn if_below(y: u64, x: u64, by: usize) -> usize
    ensures { (y < x → result ≡ by) × (x ≤ y → result ≡ 0) × (result ≤ by) }
{
    if y < x { by } else { 0 }
}

// Searches a list for x by halving: each probe is the middle place of those left, the lower of two.
pub fn find(list: &[u64], x: u64) -> Probed
    requires { length list.now ≤ list_size }
    ensures { Finding list.now x result.found result.probes }
{
    let mut lo = 0;
    let mut left = list.len();
    let mut probes: u32 = 0;
    while 0 < left {
        let half = (left - 1) / 2;
        probes += 1;
        let y = list[lo + half];
        if y == x {
            return Probed {
                found: true,
                probes,
            };
        }
        lo += if_below(y, x, half + 1);
        left = (left - 1 + if_below(y, x, 1)) / 2;
    }
    Probed {
        found: false,
        probes,
    }
}

// Moves those at the end of the first n of a list that are above x up by one. Tells how many stand before them.
fn make_room(list: &mut [u64], n: usize, x: u64) -> usize
    requires { n < length list.old }
    ensures { MakingRoom list.old list.new n x result }
{
    for i in (0..n).rev() {
        let y = list[i];
        if y <= x {
            return i + 1;
        }
        list[i + 1] = y;
    }
    0
}

// Puts x into the first n of a list, behind the last that is not above it.
pub fn insert(list: &mut [u64], n: usize, x: u64)
    requires { (length list.old ≡ list_size) × (n < list_size) }
    ensures { take (n + 1) list.new ≡ put_one (take n list.old) x }
{
    let at = make_room(list, n, x);
    list[at] = x;
}

// Makes the first n of a list `size` long: those behind are left out, those that are missing become 0.
pub fn fit(list: &mut [u64], n: usize, size: usize)
    requires { (n ≤ length list.old) × (size ≤ length list.old) }
    ensures { take size list.new ≡ fitted size (take n list.old) }
{
    if n < size {
        list[n..size].fill(0);
    }
}
