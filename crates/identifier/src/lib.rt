// The 29-bit identifier of a frame: its six fields, its PGN and destination, and which identifiers are refused.
// Every function takes any u32; of a wider number the lower 29 bits are read. docs/IDENTIFIER.md has the picture beside these lines.
#![tactic(auto)]

ghost use Rattle.std.specs.Prelude.{◌≡◌, cond};
ghost use Rattle.identifier.specs.Identifier.{priority_of, extended_data_page_of, data_page_of, pf_of, ps_of, sa_of, has_destination, pgn_of, destination_of, is_pgn, too_wide, sent_without_address, wrong_source};
ghost use Rattle.identifier.specs.Turning.{with_source, with_destination};

// What a bit counts for: divided by that, a number has the bit in the last place.
const BIT_26: u32 = 67108864;

const BIT_25: u32 = 33554432;

const BIT_24: u32 = 16777216;

const BIT_17: u32 = 131072;

const BIT_16: u32 = 65536;

const BIT_8: u32 = 256;

// The PGNs that an address claim is made of.
pub const REQUEST: u32 = 59904;

pub const ADDRESS_CLAIMED: u32 = 60928;

// The destination that means every address.
pub const GLOBAL: u32 = 255;

// The source address of one that holds no address.
pub const NO_ADDRESS: u32 = 254;

// Bits 28 to 26, the priority: 0 is the highest rank.
pub fn priority(id: u32) -> u32
    ensures { result ≡ priority_of id }
{
    id / BIT_26 % 8
}

// Bit 25, the extended data page.
pub fn extended_data_page(id: u32) -> u32
    ensures { result ≡ extended_data_page_of id }
{
    id / BIT_25 % 2
}

// Bit 24, the data page.
pub fn data_page(id: u32) -> u32
    ensures { result ≡ data_page_of id }
{
    id / BIT_24 % 2
}

// Bits 23 to 16, PF, the PDU format.
pub fn pf(id: u32) -> u32
    ensures { result ≡ pf_of id }
{
    id / BIT_16 % 256
}

// Bits 15 to 8, PS, the PDU-specific byte.
pub fn ps(id: u32) -> u32
    ensures { result ≡ ps_of id }
{
    id / BIT_8 % 256
}

// Bits 7 to 0, SA, the source address.
pub fn sa(id: u32) -> u32
    ensures { result ≡ sa_of id }
{
    id % 256
}

// Whether PS is the destination: else the frame goes to all.
pub fn has_destination(id: u32) -> bool
    ensures { result ≡ has_destination id }
{
    pf(id) < 240
}

// What PS is in the PGN: the group extension, or 0 where it is the destination.
fn group_extension(id: u32) -> u32
    ensures { result ≡ cond (has_destination id) 0 (ps_of id) }
{
    if has_destination(id) {
        return 0;
    }
    ps(id)
}

// The PGN.
pub fn pgn(id: u32) -> u32
    ensures { result ≡ pgn_of id }
{
    extended_data_page(id) * BIT_17 + data_page(id) * BIT_16 + pf(id) * BIT_8 + group_extension(id)
}

// The destination address; 255 for a frame that goes to all.
pub fn destination(id: u32) -> u32
    ensures { result ≡ destination_of id }
{
    if has_destination(id) {
        return ps(id);
    }
    GLOBAL
}

// Whether a number is a PGN: by the fields of the identifier that has it in bits 25 to 8.
pub fn is_pgn(number: u32) -> bool
    ensures { result ≡ is_pgn number }
{
    if 262144 <= number {
        return false;
    }
    let id = number * BIT_8;
    if has_destination(id) {
        return ps(id) == 0;
    }
    true
}

// Whether an identifier is refused with 3: it has more than 29 bits.
pub fn is_too_wide(id: u32) -> bool
    ensures { result ≡ too_wide id }
{
    536870912 <= id
}

// Whether a frame of PGN 59904, or of PGN 60928 to all: what one that holds no address may send.
fn is_sent_without_address(id: u32) -> bool
    ensures { result ≡ sent_without_address id }
{
    let number = pgn(id);
    if number == REQUEST {
        return true;
    }
    if number == ADDRESS_CLAIMED {
        return ps(id) == GLOBAL;
    }
    false
}

// Whether an identifier is refused with 5: its source address is none that may send it.
pub fn has_wrong_source(id: u32) -> bool
    ensures { result ≡ wrong_source id }
{
    let source = sa(id);
    if source < NO_ADDRESS {
        return false;
    }
    if source == NO_ADDRESS {
        return !is_sent_without_address(id);
    }
    true
}

// The identifier with another source address, and else as it is.
pub fn with_source(id: u32, address: u8) -> u32
    ensures { result ≡ with_source id address }
{
    id - id % BIT_8 + address as u32
}

// The identifier with another PS, the destination where PF is below 240, and else as it is.
pub fn with_destination(id: u32, address: u8) -> u32
    ensures { result ≡ with_destination id address }
{
    id - id % BIT_16 + address as u32 * BIT_8 + id % BIT_8
}
