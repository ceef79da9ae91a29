// Object files: the origin, then the words from there on, high byte first in each. Here is what reading one and writing
// one answer; what they are is in specs/, and crates/loader has the code.
#![tactic(auto)]

// The origin, and the number of words read.
#[derive(Clone, Copy)]
pub struct Loaded {
    pub origin: u16,
    pub words: u32,
}
