// Worked runs: the computed examples of crates run and logging. The crate has no code.
#![tactic(auto)]
