// Worked sittings: the computed examples of crate sitting. The crate has no code.
#![tactic(auto)]
