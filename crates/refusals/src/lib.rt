// The crate is there for its definitions and theorems: when refusals 4 to 13 come, said as rules.
#![tactic(auto)]
