// What an instruction of a monitor leads to, from what is known before it (crates/sitting/specs/Test.antt). A function
// answers none where the instruction may not be obeyed.
#![tactic(auto)]

pub mod forms;
pub mod instruction;
