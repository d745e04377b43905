#![tactic(auto)]

// Units and records in number, with the Rust's answers: the definitions give the same. There is no code here.
