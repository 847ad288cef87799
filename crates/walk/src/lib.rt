// The crate is there for its definitions and theorems: the walk, its nodes, demand 3.
#![tactic(auto)]
