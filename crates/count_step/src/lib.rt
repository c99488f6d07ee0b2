// One step of the counting stepper, in place on the words of a state and on the store (02 C-14). What stands innermost is
// looked at and edited, and nothing else: its time depends neither on the program's length nor on the counts. How many entries
// are open is handed over, and what opens or closes one answers how many there are then.
#![tactic(auto)]

pub mod look;
pub mod make;
pub mod standing;
pub mod turns;
pub mod ways;
