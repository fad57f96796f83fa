// The examples of docs/RULES.md, run: a line for each.
#![tactic(auto)]

// What is read off an identifier, or the number that refuses it.
fn identifier_line(rt: &impl Print, label: &[u8], id: u32) {
    let _ = rt.write_all(label);
    let _ = print!(rt; "{id:08x}");
    if identifier::is_too_wide(id) {
        let _ = println!(rt; ": refused with 3");
        return;
    }
    if identifier::has_wrong_source(id) {
        let _ = println!(rt; ": refused with 5");
        return;
    }
    let priority = identifier::priority(id);
    let pgn = identifier::pgn(id);
    let destination = identifier::destination(id);
    let source = identifier::sa(id);
    let _ = println!(rt;
        ": priority {priority}, PGN {pgn}, destination {destination}, source {source}"
    );
}

const IDENTIFIERS: [(&[u8], u32); 7] = [
    (b"P1 ", 0x0CF00400),
    (b"P2 ", 0x0CEF2A80),
    (b"P3 ", 0x20000000),
    (b"P4 ", 0x1FFFFFFF),
    (b"request from no address ", 0x18EA2AFE),
    (b"cannot claim ", 0x18EEFFFE),
    (b"cannot claim, to one ", 0x18EE2AFE),
];

fn main(rt: HostRuntime) {
    for (label, id) in IDENTIFIERS {
        identifier_line(&rt, label, id);
    }
}
