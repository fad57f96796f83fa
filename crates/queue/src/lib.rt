// One port's queue of at most 32 frames, in place in a block of words that the caller lends: how many wait; how many of each priority, how many were
// accepted and how many taken since power-on; and for each frame the word of its identifier and length and the word of its bytes. Join and take by the rules
// of the crate `delivery`.
#![tactic(auto)]

ghost use Rattle.std.specs.Prelude.{◌≡◌, ◌-◌, ◌<◌, ◌≤◌, length, take, slice_index_or, slice_set};
ghost use Rattle.queue.specs.Queue.{size, block_length, head, frames_of, row_of, tally_of, counted_in, counted_out, priority, Joining, Taking};
ghost use Rattle.queue.specs.Steps.{blank, remove_at, First, Counting};

// How many frames wait at most.
pub const SIZE: usize = 32;

// Behind the number of frames that wait: how many of each priority, how many were accepted, how many taken; then the frames.
const OF_PRIORITY: usize = 1;

const ACCEPTED: usize = 9;

const TAKEN: usize = 10;

const FRAMES: usize = 11;

// How many words a block has: those, and two for each frame.
pub const BLOCK_LENGTH: usize = 2 * SIZE + FRAMES;

// In the first word of a frame the length stands above the 32 bits of the identifier.
const LENGTH_PLACE: u64 = 4294967296;

// A frame: its identifier, its length, and its bytes in a word, least significant first.
#[derive(Clone, Copy, PartialEq, Eq, Debug)]
pub struct Frame {
    pub id: u32,
    pub len: u32,
    pub bytes: u64,
}

// What is counted at a port: the frames that wait, by their priority, and those accepted and taken since power-on.
#[derive(Clone, Copy, PartialEq, Eq, Debug)]
pub struct Tally {
    pub waiting: [u64; 8],
    pub accepted: u64,
    pub taken: u64,
}

// Frame i of the block.
fn get(block: &[u64], i: usize) -> Frame
    requires { (length block.now ≡ block_length) × (i < size) }
    ensures { result ≡ slice_index_or (frames_of block.now) i blank }
{
    let k = 2 * i + FRAMES;
    let head = block[k];
    Frame {
        id: (head % LENGTH_PLACE) as u32,
        len: (head / LENGTH_PLACE) as u32,
        bytes: block[k + 1],
    }
}

// Frame i of the block becomes f.
fn put(block: &mut [u64], i: usize, f: Frame)
    requires { (length block.old ≡ block_length) × (i < size) }
    ensures { (frames_of block.new ≡ slice_set (frames_of block.old) i f) × (head block.new ≡ head block.old) }
{
    let k = 2 * i + FRAMES;
    block[k] = f.id as u64 + f.len as u64 * LENGTH_PLACE;
    block[k + 1] = f.bytes;
}

// The priority number of frame i.
fn priority_at(block: &[u64], i: usize) -> u32
    requires { (length block.now ≡ block_length) × (i < size) }
    ensures { result ≡ priority (slice_index_or (frames_of block.now) i blank) }
{
    let f = get(block, i);
    identifier::priority(f.id)
}

// How many frames wait.
fn waiting(block: &[u64]) -> usize
    requires { length block.now ≡ block_length }
    ensures { (result ≡ length (row_of block.now)) × (result ≤ size) }
{
    block[0].min(SIZE as u64) as usize
}

// The place of the frame that a take gives, among the first n.
fn first(block: &[u64], n: usize) -> usize
    requires { (length block.now ≡ block_length) × (0 < n) × (n ≤ size) }
    ensures { First (frames_of block.now) n result }
{
    let mut at = 0;
    let mut low = priority_at(block, 0);
    for i in 1..n {
        let p = priority_at(block, i);
        if p < low {
            low = p;
            at = i;
        }
    }
    at
}

// Frame `at` goes out of the first n: those behind it close up.
fn close_up(block: &mut [u64], at: usize, n: usize)
    requires { (length block.old ≡ block_length) × (at < n) × (n ≤ size) }
    ensures { (take (n - 1) (frames_of block.new) ≡ remove_at at (take n (frames_of block.old))) × (head block.new ≡ head block.old) }
{
    for place in at..n - 1 {
        let f = get(block, place + 1);
        put(block, place, f);
    }
}

// One frame more waits, of a priority.
fn count_in(block: &mut [u64], priority: u32)
    requires { (length block.old ≡ block_length) × (priority < 8) }
    ensures { Counting block.old block.new (counted_in priority (tally_of block.old)) }
{
    let k = OF_PRIORITY + priority as usize;
    block[k] = block[k].wrapping_add(1);
    block[ACCEPTED] = block[ACCEPTED].wrapping_add(1);
}

// One frame of a priority was taken.
fn count_out(block: &mut [u64], priority: u32)
    requires { (length block.old ≡ block_length) × (priority < 8) }
    ensures { Counting block.old block.new (counted_out priority (tally_of block.old)) }
{
    let k = OF_PRIORITY + priority as usize;
    block[k] = block[k].wrapping_sub(1);
    block[TAKEN] = block[TAKEN].wrapping_add(1);
}

// What is counted at the port.
pub fn counts(block: &[u64]) -> Tally
    requires { length block.now ≡ block_length }
    ensures { result ≡ tally_of block.now }
{
    Tally {
        waiting: [
            block[1], block[2], block[3], block[4], block[5], block[6], block[7], block[8],
        ],
        accepted: block[ACCEPTED],
        taken: block[TAKEN],
    }
}

// A frame joins at the end of the row, or is lost where 32 wait. Tells whether it was accepted.
pub fn join(block: &mut [u64], f: Frame) -> bool
    requires { length block.old ≡ block_length }
    ensures { Joining block.old block.new f result }
{
    let n = waiting(block);
    if n < SIZE {
        put(block, n, f);
        block[0] = (n + 1) as u64;
        count_in(block, identifier::priority(f.id));
        return true;
    }
    false
}

// The frame of highest rank, the earliest of those, leaves the row, and the others keep their order.
pub fn take(block: &mut [u64]) -> Option<Frame>
    requires { length block.old ≡ block_length }
    ensures { Taking block.old block.new result }
{
    let n = waiting(block);
    if n == 0 {
        return None;
    }
    let at = first(block, n);
    let f = get(block, at);
    close_up(block, at, n);
    block[0] = (n - 1) as u64;
    count_out(block, identifier::priority(f.id));
    Some(f)
}

// A queue by value.
#[repr(C)]
#[derive(Clone, Copy)]
pub struct Queue {
    pub words: [u64; BLOCK_LENGTH],
}

// A queue after a take, and what the take gave.
#[derive(Clone, Copy)]
pub struct AfterTake {
    pub queue: Queue,
    pub taken: Option<Frame>,
}

impl Queue {
    // The take by value.
    pub fn take(self) -> AfterTake
        ensures { Taking self.words result.queue.words result.taken }
    {
        let mut block = self.words;
        let t = take(&mut block);
        AfterTake {
            queue: Queue { words: block },
            taken: t,
        }
    }
}
