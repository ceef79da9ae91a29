// Statements that a reader of the theorems needs. The crate has no code, and no crate of the library rests on it.
#![tactic(auto)]
