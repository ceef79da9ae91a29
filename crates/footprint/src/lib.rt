// The words of memory that a step reads and writes. The crate has no code: that the lists in a step's outcome mean what
// they say is stated in specs/.
#![tactic(auto)]
