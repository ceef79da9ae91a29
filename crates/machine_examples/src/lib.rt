// Worked steps high in memory: computed examples of crate machine. The crate has no code.
#![tactic(auto)]
