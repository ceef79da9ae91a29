// Computed examples beside those that stand with the definitions. The crate has no code, and no crate of the library
// rests on it: it asks of the definitions what no other table asks, so that a wrong one is refused here.
#![tactic(auto)]
