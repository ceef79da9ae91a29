// The parts of a step. The registers and memory are lent; the rest of the record, `Control`, goes by value. Each file
// holds one concept of M5 to M10. Its definition is in crates/machine/specs under the same name; that of
// `return_from` in Return.
#![tactic(auto)]

use machine::{Control, Rule};

pub mod access;
pub mod devices;
pub mod edition;
pub mod entry;
pub mod interrupts;
pub mod keys;
pub mod memory;
pub mod protection;
pub mod psr;
pub mod return_from;
pub mod timer;
pub mod words;

// What became of the display in a step.
#[derive(Clone, Copy)]
pub enum Display {
    Unchanged,
    // A byte was shown: it stands at the start of the output that was lent.
    Shown,
    // A byte was to be shown and the output had no room: nothing that is lent was altered.
    Full,
}

// What an instruction answers. Where the display is full the caller drops the rest of the answer.
#[derive(Clone, Copy)]
pub struct Obeyed {
    pub control: Control,
    pub display: Display,
    pub rule: Rule,
}

// What the arrival answers: `keys` is the index of the first key that has not arrived.
#[derive(Clone, Copy)]
pub struct Arrived {
    pub control: Control,
    pub keys: usize,
}
