// Where an instruction of a monitor may lead besides the next address: a branch, a jump, TRAP and RTI, from what is
// known before it (crates/sitting/specs/Test.antt). A function answers none where the instruction may not be obeyed.
#![tactic(auto)]

pub mod branch;
pub mod jump;

// To an address; to the first where a branch with this mask is taken, else to the second; out of the monitor.
#[derive(Clone, Copy)]
pub enum Way {
    To(u16),
    Fork(u8, u16, u16),
    Out,
}
