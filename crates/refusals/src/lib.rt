// The refusals of all calls, each with the number and the condition that it names.
#![tactic(auto)]

mod refusal;

pub use refusal::{NoRefusal, Refusal};
