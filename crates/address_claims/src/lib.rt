// What an address claim does to the address table: the contest for a place, the drop of the claimant's other addresses, and the event that came of it.
#![tactic(auto)]

ghost use Rattle.std.specs.Prelude.{◌≡◌, ◌<◌, length};
ghost use Rattle.addresses.specs.Table.{places, table_length, table_of};
ghost use Rattle.address_claims.specs.Claims.{settled, contest_event};
ghost use Rattle.address_claims.specs.Events.{event_number, old_name};
ghost use Rattle.address_claims.specs.Calls.{Dropping, Claiming, Withdrawing};

use addresses::{Held, PLACES};
use std::cmp::Ordering;

// What came of a claim. Defended and Displaced are the unit's to give: they are of a claim of its own address.
#[derive(Clone, Copy, PartialEq, Eq, Debug)]
pub enum Event {
    Nothing,
    Withdrew,
    Defended,
    Displaced,
    Recorded,
    Refreshed,
    TookOver(u64),
    Beaten,
}

impl Event {
    // The event's number, as C has it.
    pub fn number(self) -> u32
        ensures { result ≡ event_number self }
    {
        match self {
            Event::Nothing => 0,
            Event::Withdrew => 1,
            Event::Defended => 2,
            Event::Displaced => 3,
            Event::Recorded => 4,
            Event::Refreshed => 5,
            Event::TookOver(_) => 6,
            Event::Beaten => 7,
        }
    }

    // The NAME that was taken over from, 0 for every other event: a word of what C is given (`old_name`), so a number and no Option.
    pub fn old_name(self) -> u64
        ensures { result ≡ old_name self }
    {
        match self {
            Event::TookOver(old) => old,
            _ => 0,
        }
    }
}

// Every address of a NAME but `keep` becomes free (a `keep` of 254 or more keeps none); whether there was one.
pub fn drop_others(table: &mut [u64], name: u64, keep: usize) -> bool
    requires { length table.old ≡ table_length }
    ensures { Dropping table.old table.new name keep result }
{
    let mut dropped = false;
    let mut address = addresses::past_others(table, addresses::NAME, 0, name);
    while address < PLACES {
        if address != keep && addresses::is_held_by(table, address, name) {
            addresses::release(table, address);
            dropped = true;
        }
        address = addresses::past_others(table, addresses::NAME, address + 1, name);
    }
    dropped
}

// A NAME leaves the table and is recorded at an address, whatever the place held.
pub fn settle(table: &mut [u64], port: u64, address: usize, name: u64)
    requires { (length table.old ≡ table_length) × (address < places) }
    ensures { table_of table.new ≡ settled port address name (table_of table.old) }
{
    drop_others(table, name, PLACES);
    addresses::put(table, port, address, name);
}

// What comes of a NAME's claim of a place.
fn contest(place: Option<Held>, name: u64) -> Event
    ensures { result ≡ contest_event name place }
{
    let Some(holder) = place else {
        return Event::Recorded;
    };
    match name.cmp(&holder.name) {
        Ordering::Less => Event::TookOver(holder.name),
        Ordering::Equal => Event::Refreshed,
        Ordering::Greater => Event::Beaten,
    }
}

// A claim of an address 0 to 253 that is not the unit's, by a NAME that is not the unit's.
// The drop of the NAME's other addresses leaves this one alone, so the contest may come before it.
pub fn claim(table: &mut [u64], port: u64, address: usize, name: u64) -> Event
    requires { (length table.old ≡ table_length) × (address < places) }
    ensures { Claiming table.old table.new port address name result }
{
    let event = contest(addresses::holder(table, address), name);
    if event == Event::Beaten {
        drop_others(table, name, address);
    } else {
        settle(table, port, address, name);
    }
    event
}

// A claim from SA 254: the NAME leaves the table, if it held an address.
pub fn withdraw(table: &mut [u64], name: u64) -> Event
    requires { length table.old ≡ table_length }
    ensures { Withdrawing table.old table.new name result }
{
    if drop_others(table, name, PLACES) {
        return Event::Withdrew;
    }
    Event::Nothing
}
