// Forwarding: a frame from one port at every other, and the unit's own frame at all.
#![tactic(auto)]

ghost use Rattle.std.specs.Prelude.{◌≡◌, false, List, Some, ℕ, ◌+◌, ◌*◌, ◌^◌, ◌≤◌, ◌<◌, length, get_or};
ghost use Rattle.filter.specs.Filter.{block_size as filter_length};
ghost use Rattle.sorted_list.specs.SortedList.{most_probes};
ghost use Rattle.name_entries.specs.NameEntries.{most_names};
ghost use Rattle.identifier.specs.Identifier.{sa_of};
ghost use Rattle.queue.specs.Queue.{block_length as queue_length};
ghost use Rattle.unit.specs.Ports.{bit_at};
ghost use Rattle.unit.specs.Model.{model_of, record_length, rows_from};
ghost use Rattle.forwarding.specs.Forwarding.{verdict};
ghost use Rattle.forwarding.specs.Steps.{Losing, LosingAll, Joining, Sending, SendingAt, Room, way_after, way_past, way_share, Gone, Offering, Forwarding, Announcing, OwnJoining};

use filter::Asked;
use queue::Frame;

// What came of a frame: accepted and lost ports as masks, bit p - 1 for port p; the reasons, four bits a port, port p's from bit 4(p - 1); the entries
// compared.
#[derive(Clone, Copy)]
pub struct Share {
    pub accepted: u32,
    pub lost: u32,
    pub reasons: u64,
    pub compared: u32,
}

// A frame from one port was lost at another: one more for the pair and in general.
fn count_loss(words: &mut [u64], ports: usize, from: usize, to: usize)
    requires { (ports ≤ 8) × (length words.old ≡ record_length ports) × (from < ports) × (to < ports) × (from ≡ to → ⊥) }
    ensures { Losing ports words.old words.new from to }
{
    let pair = record::pair_at(ports, from, to);
    record::count_loss(words, ports, pair);
    let general = record::general_at(ports);
    record::count_loss(words, ports, general);
}

// A frame from one port joins the queue of another, or is lost there and counted.
pub fn join(words: &mut [u64], ports: usize, from: usize, to: usize, f: Frame) -> bool
    requires { (ports ≤ 8) × (length words.old ≡ record_length ports) × (from < ports) × (to < ports) × (from ≡ to → ⊥) }
    ensures { Joining ports words.old words.new from to f result }
{
    if record::join_row(words, to, f) {
        return true;
    }
    count_loss(words, ports, from, to);
    false
}

// What became of a frame at a port.
#[derive(Drop)]
enum Came {
    Stopped,
    Joined,
    Lost,
}

// What became of a frame at a port, the number of the pair's reason, the entries compared.
#[derive(Drop)]
struct Offered {
    came: Came,
    reason: u32,
    compared: u32,
}

// What a pair answered is done at the port that it leads to: the frame joins where it may cross.
fn carry(words: &mut [u64], to: usize, v: Asked, f: Frame) -> Offered
    requires { (rows_from + queue_length * to + queue_length ≤ length words.old) × (v.compared ≤ most_probes + most_names) }
    ensures { (ports : ℕ) → to < ports → Sending ports words.old words.new v to f result }
{
    let came = if !v.reason.crosses() {
        Came::Stopped
    } else if record::join_row(words, to, f) {
        Came::Joined
    } else {
        Came::Lost
    };
    Offered {
        came,
        reason: v.reason.number(),
        compared: v.compared,
    }
}

// A frame from one port at another: the pair, whose filter begins at a word, is asked, and the frame joins where it is permitted.
fn send(words: &mut [u64], at: usize, to: usize, pgn: u32, f: Frame) -> Offered
    requires { (at + filter_length ≤ length words.old) × (rows_from + queue_length * to + queue_length ≤ length words.old) }
    ensures { SendingAt words.old words.new at to pgn f result }
{
    let v = record::ask_filter(words, at, pgn, identifier::sa(f.id));
    carry(words, to, v, f)
}

// The same by a pair that has no NAME entries, so that nobody asks who sent the frame.
fn send_by_list(words: &mut [u64], at: usize, to: usize, pgn: u32, f: Frame) -> Offered
    requires { (at + filter_length ≤ length words.old) × (rows_from + queue_length * to + queue_length ≤ length words.old) × (get_or words.old at 0 < 3) }
    ensures { SendingAt words.old words.new at to pgn f result }
{
    let v = record::ask_plain(words, at, pgn);
    carry(words, to, v, f)
}

// How far a frame has gone: what came of it at the ports before one, that port's bit and the weight of its reason, where the filter of the next pair begins,
// and the port.
#[derive(Drop)]
struct Way {
    accepted: u32,
    lost: u32,
    reasons: u64,
    compared: u32,
    bit: u32,
    weight: u64,
    at: usize,
    to: usize,
}

impl Way {
    // What came of the frame at the port. Its bit is added on the way that the frame went, not a 0 on the others.
    fn after(self, s: Offered) -> Way
        requires { Room self s }
        ensures { result ≡ way_after self s }
    {
        let mut accepted = self.accepted;
        let mut lost = self.lost;
        match s.came {
            Came::Stopped => {}
            Came::Joined => {
                accepted += self.bit;
            }
            Came::Lost => {
                lost += self.bit;
            }
        }
        Way {
            accepted,
            lost,
            reasons: self.reasons + self.weight * s.reason as u64,
            compared: self.compared + s.compared,
            bit: 2 * self.bit,
            weight: 16 * self.weight,
            at: self.at + filter::BLOCK_SIZE,
            to: self.to + 1,
        }
    }

    // The port is the frame's own, which has no pair.
    fn past(self) -> Way
        requires { (self.bit ≤ 128) × (self.weight ≤ 2 ^ 28) × (self.to ≤ 8) }
        ensures { result ≡ way_past self }
    {
        Way {
            bit: 2 * self.bit,
            weight: 16 * self.weight,
            to: self.to + 1,
            ..self
        }
    }

    fn share(self) -> Share
        ensures { result ≡ way_share self }
    {
        Share {
            accepted: self.accepted,
            lost: self.lost,
            reasons: self.reasons,
            compared: self.compared,
        }
    }
}

// A frame from one port along the filters of the pairs from it, up to the first pair that has NAME entries; the port itself has none. The way of a loss, which is
// not counted here, and the NAME entries take no register in this loop.
fn offer_by_lists(words: &mut [u64], ports: usize, from: usize, pgn: u32, f: Frame) -> Way
    requires { (ports ≤ 8) × (length words.old ≡ record_length ports) × (from < ports) }
    ensures { Gone ports words.old words.new from pgn f result }
{
    let mut way = Way {
        accepted: 0,
        lost: 0,
        reasons: 0,
        compared: 0,
        bit: 1,
        weight: 1,
        at: record::filters_from(ports, from),
        to: 0,
    };
    for to in 0..ports {
        if from == to {
            way = way.past();
        } else {
            if record::has_names(words, way.at) {
                return way;
            }
            let s = send_by_list(words, way.at, to, pgn, f);
            way = way.after(s);
        }
    }
    way
}

// The rest of a frame's way, whatever the pairs have.
fn offer_rest(words: &mut [u64], ports: usize, from: usize, pgn: u32, f: Frame, gone: Way) -> Share
    requires { (ports ≤ 8) × (from < ports) × ((start : List ℕ) × Gone ports start words.old from pgn f gone) }
    ensures { (start : List ℕ) → Gone ports start words.old from pgn f gone → Offering ports start words.new (verdict ports (model_of ports start).rest from pgn (sa_of f.id)) f result }
{
    let mut way = gone;
    for to in way.to..ports {
        if from == to {
            way = way.past();
        } else {
            let s = send(words, way.at, to, pgn, f);
            way = way.after(s);
        }
    }
    way.share()
}

// A frame from one port at every other. What is lost is not counted here.
fn offer(words: &mut [u64], ports: usize, from: usize, pgn: u32, f: Frame) -> Share
    requires { (ports ≤ 8) × (length words.old ≡ record_length ports) × (from < ports) }
    ensures { Offering ports words.old words.new (verdict ports (model_of ports words.old).rest from pgn (sa_of f.id)) f result }
{
    let way = offer_by_lists(words, ports, from, pgn, f);
    if way.to == ports {
        return way.share();
    }
    offer_rest(words, ports, from, pgn, f, way)
}

// A frame from one port was lost at those of a set, bit p - 1 for port p: each loss is counted.
fn count_losses(words: &mut [u64], ports: usize, from: usize, lost: u32)
    requires { (ports ≤ 8) × (length words.old ≡ record_length ports) × (from < ports) × (bit_at lost from ≡ false) }
    ensures { LosingAll ports words.old words.new from (λ q. bit_at lost q) }
{
    let mut set = lost;
    for to in 0..ports {
        if set % 2 == 1 {
            count_loss(words, ports, from, to);
        }
        set /= 2;
    }
}

// A frame from one port at every other, and what is lost there counted.
pub fn forward(words: &mut [u64], ports: usize, from: usize, pgn: u32, f: Frame) -> Share
    requires { (ports ≤ 8) × (length words.old ≡ record_length ports) × (from < ports) }
    ensures { Forwarding ports words.old words.new from (verdict ports (model_of ports words.old).rest from pgn (sa_of f.id)) f result }
{
    let s = offer(words, ports, from, pgn, f);
    if s.lost != 0 {
        count_losses(words, ports, from, s.lost);
    }
    s
}

// The unit's own frame at one port: its bit where the frame is lost there, which is counted in general, else 0.
fn join_own(words: &mut [u64], ports: usize, to: usize, bit: u32, f: Frame) -> u32
    requires { (ports ≤ 8) × (length words.old ≡ record_length ports) × (to < ports) }
    ensures { OwnJoining ports words.old words.new to bit f result }
{
    if record::join_row(words, to, f) {
        return 0;
    }
    let general = record::general_at(ports);
    record::count_loss(words, ports, general);
    bit
}

// The unit's own frame at every port, the ports where it is lost.
fn join_all(words: &mut [u64], ports: usize, f: Frame) -> u32
    requires { (ports ≤ 8) × (length words.old ≡ record_length ports) }
    ensures { Announcing ports words.old words.new (Some f) result }
{
    let mut lost: u32 = 0;
    let mut bit: u32 = 1;
    for port in 0..ports {
        lost += join_own(words, ports, port, bit, f);
        bit *= 2;
    }
    lost
}

// What the unit sends of its own, to every port; the ports where it is lost.
pub fn announce(words: &mut [u64], ports: usize, sent: Option<Frame>) -> u32
    requires { (ports ≤ 8) × (length words.old ≡ record_length ports) }
    ensures { Announcing ports words.old words.new sent result }
{
    match sent {
        None => 0,
        Some(f) => join_all(words, ports, f),
    }
}
