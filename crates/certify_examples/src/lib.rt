// No code: what `certify` answers of a class's monitor, computed.
#![tactic(auto)]
