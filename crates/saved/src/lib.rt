// The saved record as definitions, with what is proved of it. There is no code: the calls are in crate `record`.
#![tactic(auto)]
