// The unit's own words, which stand first in the record, read and stored.
ghost use Rattle.std.specs.Prelude.{◌≡◌, ℕ, ◌≤◌, length};
ghost use Rattle.unit.specs.Count.{ports_of, Counting};
ghost use Rattle.unit.specs.Model.{model_of, own_length, with_own, with_rest};
ghost use Rattle.unit.specs.Own.{moved};

use crate::{Claim, Unit};

// The number of ports of the unit in a record of any length.
pub fn ports_of(words: &[u64]) -> u32
    ensures { Counting (ports_of words.now) result }
{
    if words.len() < 5 {
        return Unit::PORTS;
    }
    Unit::count_of(words[4])
}

// The unit that the record holds.
pub fn read_unit(words: &[u64]) -> Unit
    requires { own_length ≤ length words.now }
    ensures { (ports : ℕ) → result ≡ (model_of ports words.now).rest.own }
{
    Unit {
        claim: Claim::from_word(words[0]),
        address: (words[1] % 256) as u8,
        preferred: (words[2] % 4294967296) as u32,
        name: words[3],
        ports: Unit::count_of(words[4]),
    }
}

// The unit that the record holds is in another claim state.
pub fn store_claim(words: &mut [u64], claim: Claim)
    requires { own_length ≤ length words.old }
    ensures { (ports : ℕ) → model_of ports words.new ≡ with_rest (model_of ports words.old) (with_own (model_of ports words.old).rest (moved (model_of ports words.old).rest.own claim (model_of ports words.old).rest.own.address)) }
{
    words[0] = claim.word();
}

// The record holds another unit.
pub fn store_unit(words: &mut [u64], unit: Unit)
    requires { (own_length ≤ length words.old) × (2 ≤ unit.ports) × (unit.ports ≤ 8) }
    ensures { (ports : ℕ) → model_of ports words.new ≡ with_rest (model_of ports words.old) (with_own (model_of ports words.old).rest unit) }
{
    words[..5].copy_from_slice(&[
        unit.claim.word(),
        unit.address as u64,
        unit.preferred as u64,
        unit.name,
        unit.ports as u64,
    ]);
}
