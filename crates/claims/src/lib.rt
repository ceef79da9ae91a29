// A claim about a monitor, which a tool hands over as numbers (specs/Encoding.antt), and what is known at an address
// of it (specs/Decoded.antt).
#![tactic(auto)]

pub mod cells;
pub mod states;
pub mod table;
pub mod values;

pub type Watched = [u16; 8];

// The monitor's words and what each is, the lowest word of its stack, the words that are watched, and the table of
// what is known at each address: where each row ends, and the states.
#[derive(Clone, Copy)]
pub struct Claim<'a> {
    pub memory: &'a [u16],
    pub kinds: &'a [u8],
    pub lowest: u16,
    pub watched: &'a Watched,
    pub ends: &'a [u32],
    pub table: &'a [u32],
}
