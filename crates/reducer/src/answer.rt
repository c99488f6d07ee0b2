// How a run of the reducer ended: as any run, and how many variables its reductions replaced (02 C-13).
ghost use Rattle.std.specs.Prelude.{◌≡◌};
ghost use Rattle.record.specs.Refusal.{refusal_number};
ghost use Rattle.run.specs.Represents.{run_answer_of};
ghost use Rattle.reducer.specs.Represents.{answer_of, in_numbers, replaced_of};

use record::refusal::Refusal;
use run::{RunEnd, RunNumbers};

// A reduction replaces at most 2,048 variables, one for every 8 bytes of a buffer, and a run makes less than 2^32 of them: their sum
// is below 2^43.
#[derive(Clone, Copy)]
pub struct Reduced {
    pub end: RunEnd,
    pub replaced: u64,
}

// The same as it crosses the C boundary.
#[repr(C)]
#[derive(Clone, Copy)]
pub struct ReducedNumbers {
    pub number: u32,
    pub outcome: u32,
    pub steps: u32,
    pub left: u32,
    pub used: u32,
    pub replaced: u64,
}

impl From<Result<Reduced, Refusal>> for ReducedNumbers {
    ghost from_gives = { λ answer numbers. numbers ≡ in_numbers (answer_of answer) (replaced_of answer) };

    fn from(answer: Result<Reduced, Refusal>) -> ReducedNumbers {
        match answer {
            Ok(reduced) => numbers_of(Ok(reduced.end), reduced.replaced),
            // A refused run replaces nothing.
            Err(refusal) => numbers_of(Err(refusal), 0),
        }
    }
}

fn numbers_of(answer: Result<RunEnd, Refusal>, replaced: u64) -> ReducedNumbers
    ensures { result ≡ in_numbers (run_answer_of refusal_number answer) replaced }
{
    let end = RunNumbers::from(answer.map_err(Refusal::number));
    ReducedNumbers {
        number: end.number,
        outcome: end.outcome,
        steps: end.steps,
        left: end.left,
        used: end.used,
        replaced,
    }
}
