// Worked calls of the monitor's routines: that the premises of crate monitor's theorems can be met. The crate has no
// code.
#![tactic(auto)]
