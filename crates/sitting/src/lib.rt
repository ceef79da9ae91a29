// A whole sitting: a candidate's program in User mode beside the ready-made monitor. The crate has no code: what a
// sitting tells of secret words is stated in specs/.
#![tactic(auto)]
