// Substitution in place, and the test for free variables. Works on a checked term.
#![tactic(auto)]

pub mod closed;
mod path;
pub mod substitute;
