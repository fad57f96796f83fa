// The calls of a script on one unit, through the functions that C calls: each is made, what came of it is counted, and what it tells is put behind its letter.
ghost use Rattle.std.specs.Prelude.{◌≡◌, ◌<◌, ◌≤◌, length};
ghost use Rattle.unit.specs.Model.{record_length};

use deorasaeng::{COUNTS_WORDS, FRAME_WORDS, MESSAGE_WORDS, START_WORDS, TAKE_WORDS, UNIT_WORDS};
use line_parts::{Hex, Line, Ports};
use script::Call;
use script_output::{Frame, Tally, reasons, words};
use unit::Unit;

// Room for the record of the largest unit, one of eight ports.
const RECORD_WORDS: usize = Unit::QUEUES_AT
    + queue::BLOCK_LENGTH * 8
    + filter::BLOCK_SIZE * 56
    + losses::COUNTER_LENGTH * 57;

// The bytes of a frame that is taken, and the least length of a reply buffer.
const FRAME_BYTES: usize = 8;

const REPLY_BYTES: usize = 1785;

// Room for the bytes of a line.
const LINE_BYTES: usize = 2048;

// The priorities of the frames that wait at a port.
const PRIORITIES: usize = 8;

// Add by NAME, and the length of its payload.
const ADD_BY_NAME: u8 = 7;

const NAME_BYTES: usize = 23;

// The reasons of a frame that counts as listed.
const LISTED_IN_PASS: usize = 3;

const STOPPED_AS_LISTED: usize = 5;

// What refuses a message for one of its entries.
const ABSENT: u32 = 17;

const WRONG_ENTRY: u32 = 22;

// What a call came to: it was done, or a number refused it.
type Done = Result<(), u32>;

fn done(number: u32) -> Done {
    if number == 0 { Ok(()) } else { Err(number) }
}

#[derive(Drop)]
pub struct Run {
    pub tally: Tally,
    record: [u64; RECORD_WORDS],
}

impl Run {
    pub fn new() -> Run {
        Run {
            tally: Tally::new(),
            record: [0; RECORD_WORDS],
        }
    }

    // How many ports the unit has that there is.
    fn ports(&self) -> usize
        ensures { (2 ≤ result) × (result ≤ 8) }
    {
        unit::ports_of(&self.record) as usize
    }

    // The record of a unit of so many ports.
    fn record(&mut self, ports: usize) -> &mut [u64]
        requires { (2 ≤ ports) × (ports ≤ 8) }
    {
        let n = Unit::record_length(ports).min(RECORD_WORDS);
        &mut self.record[..n]
    }

    fn power_on(&mut self, name: u64, preferred: u32, ports: u32) -> Done {
        let made = Unit::count_of(u64::from(ports)) as usize;
        let words = self.record(made);
        let done = done(deorasaeng::deorasaeng_power_on_ports(words, name, preferred, ports));
        self.tally.unit(made);
        self.tally.power_on.count(done);
        done
    }

    // The claim's state, and the ports where the unit's own frame was lost.
    fn start(&mut self, out: &mut Line) -> Done {
        let mut told = [0u64; START_WORDS];
        let ports = self.ports();
        let done = done(deorasaeng::deorasaeng_start(self.record(ports), &mut told));
        self.tally.start.count(done);
        done?;
        let [lost, claim] = told;
        self.tally.own_lost(lost);
        let claim = words::claim(claim);
        let lost = Ports(lost);
        out.put(format_args!(" {claim} {lost}"));
        Ok(())
    }

    fn quiet(&mut self) -> Done {
        let ports = self.ports();
        let done = done(deorasaeng::deorasaeng_quiet(self.record(ports)));
        self.tally.quiet.count(done);
        done
    }

    // The unit: its claim's state, its address, - for none, the one that it prefers, its NAME and its ports.
    fn unit(&mut self, out: &mut Line) -> Done {
        let mut told = [0u64; UNIT_WORDS];
        let ports = self.ports();
        let done = done(deorasaeng::deorasaeng_unit(self.record(ports), &mut told));
        self.tally.unit.count(done);
        done?;
        let [claim, address, preferred, name, ports] = told;
        let claim = words::claim(claim);
        out.put(format_args!(" {claim} "));
        if address == u64::from(unit::NO_ADDRESS) {
            out.push(b"-");
        } else {
            out.put(address);
        }
        out.put(format_args!(" {preferred} {name:016X} {ports}"));
        Ok(())
    }

    // A frame: whether it was consumed; the ports that accepted it and that lost it; the event, with the NAME that an address was taken over from, which is the
    // higher one; the ports that lost the unit's own; the entries compared; the reasons; and the ports where a NAME entry lists it.
    fn frame(&mut self, port: u32, identifier: u32, digits: &[u8], out: &mut Line) -> Done {
        let mut space = [0u8; LINE_BYTES];
        let bytes = script::decode(digits, &mut space);
        let mut told = [0u64; FRAME_WORDS];
        let ports = self.ports();
        let words = self.record(ports);
        let done = done(deorasaeng::deorasaeng_frame(words, port, identifier, bytes, &mut told));
        self.tally.frames.count(done);
        done?;
        let [
            consumed,
            accepted,
            lost,
            event,
            loser,
            own_lost,
            compared,
            reasons,
        ] = told;
        let frame = Frame {
            is_consumed: consumed == 1,
            accepted,
            lost,
            own_lost,
            reasons,
        };
        self.tally.frame(frame, ports);
        let consumed = if frame.is_consumed { "c" } else { "-" };
        let accepted = Ports(accepted);
        let lost = Ports(lost);
        let event = words::event(event);
        out.put(format_args!(" {consumed} {accepted} {lost} {event}"));
        if loser != 0 {
            out.put(format_args!("{loser:016X}"));
        }
        let own_lost = Ports(own_lost);
        out.put(format_args!(" {own_lost} {compared}  "));
        reasons::tell(reasons, ports, out);
        let named = self.named(ports, port, identifier::pgn(identifier), reasons);
        if named != 0 {
            let named = Ports(named);
            out.put(format_args!("  by NAME: {named}"));
        }
        Ok(())
    }

    // A take: whether there is a frame, its identifier, its length and its bytes.
    fn take(&mut self, port: u32, out: &mut Line) -> Done {
        let mut told = [0u64; TAKE_WORDS];
        let mut bytes = [0u8; FRAME_BYTES];
        let ports = self.ports();
        let words = self.record(ports);
        let done = done(deorasaeng::deorasaeng_take(words, port, &mut told, &mut bytes));
        self.tally.takes.count(done);
        done?;
        let [is_given, identifier, length] = told;
        if is_given == 0 {
            out.push(b" -");
            return Ok(());
        }
        self.tally.given();
        out.put(format_args!(" {identifier:08X} {length}"));
        tell_bytes(&bytes, length, out);
        Ok(())
    }

    // A port's counts: the frames that wait, by their priority and all, and those accepted and taken since power-on.
    fn counts(&mut self, port: u32, out: &mut Line) -> Done {
        let mut told = [0u64; COUNTS_WORDS];
        let ports = self.ports();
        let done = done(deorasaeng::deorasaeng_counts(self.record(ports), port, &mut told));
        self.tally.counts.count(done);
        done?;
        let waiting = &told[..PRIORITIES];
        for n in waiting {
            out.put(format_args!(" {n}"));
        }
        let all = waiting.iter().fold(0u64, |all, n| all.wrapping_add(*n));
        let accepted = told[PRIORITIES];
        let taken = told[PRIORITIES + 1];
        out.put(format_args!("  waiting {all}, accepted {accepted}, taken {taken}"));
        Ok(())
    }

    // A message: the number, the PGN, the length and the bytes that were written, which entry was wrong, and the NAME entry that was added.
    fn message(&mut self, port: u32, requester: u32, digits: &[u8], out: &mut Line) -> Done {
        let mut space = [0u8; LINE_BYTES];
        let payload = script::decode(digits, &mut space);
        let mut told = [0u64; MESSAGE_WORDS];
        let mut reply = [0u8; REPLY_BYTES];
        let ports = self.ports();
        let words = self.record(ports);
        let number = deorasaeng::deorasaeng_message(
            words, port, requester, payload, &mut reply, &mut told,
        );
        let done = done(number);
        self.tally.messages.count(done);
        let [pgn, length, entry, to, absent] = told;
        out.put(format_args!(" {number} {pgn} {length}"));
        tell_bytes(&reply, length, out);
        match done {
            Ok(()) => tell_entry(payload, out),
            Err(WRONG_ENTRY) => out.put(format_args!("  entry {entry}")),
            Err(ABSENT) => out.put(format_args!("  port {to} PGN {absent}")),
            Err(_) => {}
        }
        done
    }

    // The ports where a NAME entry lists a frame that came in at a port, as a mask.
    fn named(&self, ports: usize, port: u32, pgn: u32, reasons: u64) -> u64
        requires { (2 ≤ ports) × (ports ≤ 8) }
    {
        let n = Unit::record_length(ports);
        let from = (port as usize).wrapping_sub(1);
        if RECORD_WORDS < n || ports <= from {
            return 0;
        }
        let words = &self.record[..n];
        let mut mask = 0u64;
        for to in 0..ports {
            if is_named(words, ports, from, to, pgn, reasons::at(reasons, to)) {
                mask |= 1 << to;
            }
        }
        mask
    }

    // A call, and its answer: its letter, and what it tells or the number that refused it, which a message tells by itself.
    pub fn make(&mut self, call: Call, out: &mut Line) -> Done {
        out.put(call.letter());
        let done = match call {
            Call::PowerOn {
                name,
                preferred,
                ports,
            } => self.power_on(name, preferred, ports),
            Call::Start => self.start(out),
            Call::Quiet => self.quiet(),
            Call::Unit => self.unit(out),
            Call::Frame {
                port,
                identifier,
                bytes,
            } => self.frame(port, identifier, bytes, out),
            Call::Take { port } => self.take(port, out),
            Call::Counts { port } => self.counts(port, out),
            Call::Message {
                port,
                requester,
                payload,
            } => return self.message(port, requester, payload, out),
        };
        if let Err(number) = done {
            out.put(format_args!(" R {number}"));
        }
        done
    }
}

// Whether a NAME entry lists a frame at a port, both counted from 0: it counts as listed there, and the pair's list has not its PGN.
fn is_named(words: &[u64], ports: usize, from: usize, to: usize, pgn: u32, reason: usize) -> bool
    requires { (ports ≤ 8) × (from < ports) × (to < ports) × (length words.now ≡ record_length ports) }
{
    if !matches!(reason, LISTED_IN_PASS | STOPPED_AS_LISTED) || from == to {
        return false;
    }
    let pair = record::pair_at(ports, from, to);
    !record::lists(words, ports, pair, u64::from(pgn))
}

// A blank, and as many bytes as there are said to be.
fn tell_bytes(bytes: &[u8], length: u64, out: &mut Line) {
    if let Some(bytes) = bytes.get(..length as usize) {
        let bytes = Hex(bytes);
        out.put(format_args!(" {bytes}"));
    }
}

// The pair and the entry of an Add by NAME.
fn tell_entry(payload: &[u8], out: &mut Line) {
    if payload.len() != NAME_BYTES || payload[0] != ADD_BY_NAME {
        return;
    }
    let from = payload[1] / 16;
    let to = payload[1] % 16;
    let pgn = storage::pack(&payload[2..5]);
    let name = storage::pack(&payload[5..13]);
    let mask = storage::pack(&payload[13..21]);
    out.put(format_args!("  pair {from} to {to}: PGN {pgn}, NAME {name:016X}, mask {mask:016X}"));
}
