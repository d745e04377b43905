#![tactic(auto)]

// Laws of the definition, and the promises that follow from them. There is no code here.
