// The monitor's routines, interrupted on the way by a class's own interrupt routine. The crate has no code.
#![tactic(auto)]
