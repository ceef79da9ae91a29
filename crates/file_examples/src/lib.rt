// Worked files: the computed examples of crates object and start. The crate has no code.
#![tactic(auto)]
