// What a person reads for a number.

// Why a call is refused: what is wrong with a call's own arguments or the unit's state, 1 to 8; with a message's payload, 9 to 17, 22 and 23; with the moment
// of Start or Quiet, 18; with the count that a power-on has, 27. The numbers between are of no call here and have none.
pub fn refusal(number: u32) -> &'static str {
    match number {
        1 => "port not 1 to the number of ports",
        2 => "lent storage not of its published length",
        3 => "identifier 2^29 or more",
        4 => "frame length over 8",
        5 => "source address 255, or 254 in a frame that may not have it",
        6 => "unit not Claimed",
        7 => "payload not 8 to 1,785 bytes",
        8 => "requester, or at Start the preferred address, not 0 to 253",
        9 => "function not listed",
        10 => "port outside 1 to the number of ports, or From equals To",
        11 => "pair or port not this tool's",
        12 => "body wrong: length or filling",
        13 => "Create mode not 0 or 1",
        14 => "Create: a named pair not cleared",
        15 => "Add, Delete: a named pair cleared",
        16 => "a named pair would pass 32 PGNs or 8 NAME entries",
        17 => "Delete: a PGN absent from a named pair",
        18 => "Start not in Unstarted, Quiet not in Claiming",
        22 => "an entry is no PGN",
        23 => "parameter not held, or not one to reset",
        27 => "port count not 2 to 8",
        _ => "",
    }
}

// A claim's event. That an address was taken over is told with the NAME that lost it.
pub fn event(number: u64) -> &'static str {
    match number {
        0 => "-",
        1 => "Withdrew",
        2 => "Defended",
        3 => "Displaced",
        4 => "Recorded",
        5 => "Refreshed",
        6 => "TookOver:",
        7 => "Beaten",
        _ => "",
    }
}

// How far the unit's own address claim is.
pub fn claim(number: u64) -> &'static str {
    match number {
        0 => "Unstarted",
        1 => "Claiming",
        2 => "Claimed",
        3 => "Lost",
        _ => "",
    }
}

// Why a frame crossed to a port, or stopped on the way there.
pub fn reason(number: usize) -> &'static str {
    match number {
        0 => "not asked",
        1 => "permanent",
        2 => "cleared",
        3 => "listed in pass",
        4 => "not listed in block",
        5 => "stopped as listed",
        6 => "stopped as not listed",
        _ => "",
    }
}
