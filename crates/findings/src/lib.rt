// What is found wrong with a claim about any class's monitor, and what follows where nothing is (specs/Answer.antt).
// The crate `certify` computes it.
#![tactic(auto)]

pub mod finding;

// What is wrong first: 0 nothing; 1 watched is not eight words; 2 the words leave no room for the stack; 3 a vector,
// 4 an interrupt's vector, 5 a word that may change, but has states; 6 what is known of the stack in a state; 7 the
// instruction from a state. With the address of the word, and the number of the state in the table.
#[repr(C)]
#[derive(Clone, Copy)]
pub struct Certified {
    pub finding: u32,
    pub address: u32,
    pub state: u32,
}

// The same inside: what is wrong, with the word's address and the state's number where it has them.
#[derive(Clone, Copy)]
pub enum Fault {
    NotEightWatched,
    NoRoom,
    NoEntry(u16),
    NoReturn(u16),
    NotFixed(usize, u32),
    NotSound(u16, u32),
    NotHarmless(u16, u32),
}
