// Text put straight to its place in a lent output, by a writer: characters and operands. A method that puts text asks
// for its room, and leaves the writer at the place after it. Each is inlined, so that the writer stays in registers.
#![tactic(auto)]

pub mod characters;
pub mod operands;
