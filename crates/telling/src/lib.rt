// What is told of the step that a run would make next: the types that its definitions share with the code. The crate
// `next_step` computes it.
#![tactic(auto)]

use machine::Rule;
use run::Ending;

// The addresses of lent words, in the order of the step: so many of the three, and the others 0.
#[repr(C)]
#[derive(Clone, Copy)]
pub struct Addresses {
    pub count: u16,
    pub first: u16,
    pub second: u16,
    pub third: u16,
}

// By which rule a step is made, and the lent words that it takes and stores to.
#[derive(Clone, Copy)]
pub struct Touched {
    pub rule: Rule,
    pub reads: Addresses,
    pub writes: Addresses,
}

// What is told: a step, where the ending is done, with the word that it fetches; or why none would be made.
#[derive(Clone, Copy)]
pub struct Told {
    pub ending: Ending,
    pub word: u16,
    pub touched: Touched,
}
