// What crosses to C, as computed examples. The crate has no code, and no crate of the library rests on it.
#![tactic(auto)]
