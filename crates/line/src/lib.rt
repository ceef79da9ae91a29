// A memory word as a line of text (M16): its characters put into a lent output, and how many they are (M20). No
// buffer but the lent output holds a line or a part of one.
#![tactic(auto)]

pub mod lengths;
pub mod putting;
