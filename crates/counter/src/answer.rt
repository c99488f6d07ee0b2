// How a run of the counting stepper ended, as it crosses the C boundary: no record is left, so there is no used length.
ghost use Rattle.std.specs.Prelude.{◌≡◌};
ghost use Rattle.record.specs.Refusal.{refusal_number};
ghost use Rattle.run.specs.Represents.{run_answer_of};
ghost use Rattle.counter.specs.Represents.{in_numbers};

use record::refusal::Refusal;
use run::{RunEnd, RunNumbers};

#[repr(C)]
#[derive(Clone, Copy)]
pub struct CountedNumbers {
    pub number: u32,
    pub outcome: u32,
    pub steps: u32,
    pub left: u32,
}

impl From<Result<RunEnd, Refusal>> for CountedNumbers {
    ghost from_gives = { λ answer numbers. numbers ≡ in_numbers (run_answer_of refusal_number answer) };

    fn from(answer: Result<RunEnd, Refusal>) -> CountedNumbers {
        let numbers = RunNumbers::from(answer.map_err(Refusal::number));
        CountedNumbers {
            number: numbers.number,
            outcome: numbers.outcome,
            steps: numbers.steps,
            left: numbers.left,
        }
    }
}
