#![tactic(auto)]

// The promises, of reader and writer as they stand. There is no code here.
