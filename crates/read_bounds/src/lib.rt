#![tactic(auto)]

// How far a reading of the table can go, whatever the bytes are. There is no code here.
