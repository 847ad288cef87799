// The crate is there for its definitions and theorems: trees, the grammar, its records.
#![tactic(auto)]
