#![tactic(auto)]

// What is right: the video parameter set as syntax tables, its record, and the reading and writing of both. There is no code here.
