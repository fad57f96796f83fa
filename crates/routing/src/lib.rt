// What turns in a frame's identifier as it crosses from a port to another, by the tables of the ports other than 1.
#![tactic(auto)]

ghost use Rattle.std.specs.Prelude.{◌≡◌, ◌-◌, ◌*◌, ◌≤◌, length};
ghost use Rattle.identifier.specs.Identifier.{ps_of, sa_of};
ghost use Rattle.identifier.specs.Turning.{with_source, with_destination};
ghost use Rattle.address_pairs.specs.AddressPairs.{pairs_length, out_of, in_to, tables_of, table_of};
ghost use Rattle.routing.specs.Routing.{is_claim, turns_source, turns_destination, by_entry, turn, turned};

// Whether a frame is an address claim, by its identifier and its length.
#[tactic(auto, unfolding(crate::specs::Routing::is_claim))]
fn is_claim(id: u32, len: u32) -> bool
    ensures { result ≡ is_claim id len }
{
    identifier::pgn(id) == identifier::ADDRESS_CLAIMED
        && identifier::ps(id) == identifier::GLOBAL
        && len == 8
}

// Whether the source address turns: towards port 1.
#[tactic(auto, unfolding(crate::specs::Routing::turns_source))]
fn turns_source(from: usize, to: usize) -> bool
    ensures { result ≡ turns_source from to }
{
    from != 1 && to == 1
}

// Whether the destination turns: from port 1, where there is one.
#[tactic(auto, unfolding(crate::specs::Routing::turns_destination))]
fn turns_destination(from: usize, to: usize, id: u32) -> bool
    ensures { result ≡ turns_destination from to id }
{
    from == 1
        && to != 1
        && identifier::has_destination(id)
        && identifier::ps(id) != identifier::GLOBAL
}

// The identifier with which a frame that is no claim crosses, if it does.
pub fn turn(tables: &[u64], from: usize, to: usize, id: u32) -> Option<u32>
    requires { (1 ≤ from) × (1 ≤ to) × (pairs_length * (from - 1) ≤ length tables.now) × (pairs_length * (to - 1) ≤ length tables.now) }
    ensures { result ≡ turn (tables_of tables.now) from to id }
{
    if turns_source(from, to) {
        let outer = address_pairs::out_of(tables, from, identifier::sa(id))?;
        return Some(identifier::with_source(id, outer));
    }
    if turns_destination(from, to, id) {
        let inner = address_pairs::in_to(tables, to, identifier::ps(id))?;
        return Some(identifier::with_destination(id, inner));
    }
    Some(id)
}

// That of any frame: a claim crosses nowhere.
pub fn turned(tables: &[u64], from: usize, to: usize, id: u32, len: u32) -> Option<u32>
    requires { (1 ≤ from) × (1 ≤ to) × (pairs_length * (from - 1) ≤ length tables.now) × (pairs_length * (to - 1) ≤ length tables.now) }
    ensures { result ≡ turned (tables_of tables.now) from to id len }
{
    if is_claim(id, len) {
        return None;
    }
    turn(tables, from, to, id)
}
