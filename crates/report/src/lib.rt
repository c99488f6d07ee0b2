// The program's line: from the entire standard input to the line printed, as functions on lent slices.
#![tactic(auto)]

pub mod input;
pub mod line;
