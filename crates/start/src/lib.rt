// Load and start together. Here is what the calls answer; what they are is in specs/, and crates/starter has the code.
#![tactic(auto)]

use machine::Machine;

// The record, and the number of words loaded.
#[derive(Clone, Copy)]
pub struct Started {
    pub machine: Machine,
    pub words: u32,
}
