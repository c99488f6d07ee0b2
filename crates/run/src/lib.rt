// What the runs of all engines share: the outcome, the tally, and how a run ended.
#![tactic(auto)]

pub mod value;

ghost use Rattle.std.specs.Prelude.{◌≡◌, ◌+◌, ◌<◌, ◌^◌};
ghost use Rattle.run.specs.Represents.{answered, as_outcome, as_run_answer, in_numbers, run_answer_of};
ghost use Rattle.run.specs.RunAnswer.{outcome_number, room_reads};
ghost use Rattle.run.specs.Tally.{advanced, ends_with, is_spent, started};

#[derive(Clone, Copy)]
pub enum Outcome {
    Finished,
    Over,
    NoRoom,
    Spent,
    Refused,
}

// An enum cannot cross the C boundary: its number does.
#[tactic(auto, unfolding(crate::specs::RunAnswer::outcome_number))]
pub fn outcome_number(o: Outcome) -> u32
    ensures { result ≡ outcome_number (as_outcome o) }
{
    match o {
        Outcome::Refused => 0,
        Outcome::Finished => 1,
        Outcome::Over => 2,
        Outcome::NoRoom => 3,
        Outcome::Spent => 4,
    }
}

// 01's tally: steps made in this run, and budget left.
#[derive(Clone, Copy)]
pub struct Tally {
    pub steps: u32,
    pub left: u32,
}

impl Tally {
    pub fn start(budget: u32) -> Tally
        ensures { result ≡ started budget }
    {
        Tally {
            steps: 0,
            left: budget,
        }
    }

    // One step was made. The two numbers together stay the budget, which is a u32: so a run's count of steps always fits.
    pub fn advance(self) -> Tally
        requires { (0 < self.left) × (self.steps + self.left < 2 ^ 32) }
        ensures { result ≡ advanced self }
    {
        Tally {
            steps: self.steps + 1,
            left: self.left - 1,
        }
    }

    pub fn spent(self) -> bool
        ensures { result ≡ is_spent self }
    {
        self.left == 0
    }
}

// What a state reads whose next state has `next` bytes. Spent says that the step can be made; the budget has not been looked at.
#[tactic(auto, unfolding(crate::specs::RunAnswer::room_reads))]
pub fn room_outcome(next: usize, room: usize) -> Outcome
    ensures { as_outcome result ≡ room_reads next room }
{
    if room < next {
        Outcome::NoRoom
    } else {
        Outcome::Spent
    }
}

// Whether a run ends here, by the outcome that its state reads.
#[tactic(auto, unfolding(crate::specs::Tally::ends_with))]
pub fn ends(outcome: Outcome, tally: Tally) -> bool
    ensures { result ≡ ends_with outcome tally }
{
    match outcome {
        Outcome::Spent => tally.spent(),
        _ => true,
    }
}

// How a run ended that was made; `used` is the new used length.
#[derive(Clone, Copy)]
pub struct RunEnd {
    pub outcome: Outcome,
    pub steps: u32,
    pub left: u32,
    pub used: u32,
}

// A run's answer as it crosses the C boundary. `number` is that of the refusal, 0 for a run that was made.
#[repr(C)]
#[derive(Clone, Copy)]
pub struct RunNumbers {
    pub number: u32,
    pub outcome: u32,
    pub steps: u32,
    pub left: u32,
    pub used: u32,
}

impl From<Result<RunEnd, u32>> for RunNumbers {
    ghost from_gives = { λ answer numbers. numbers ≡ in_numbers (run_answer_of (λ number. number) answer) };

    fn from(answer: Result<RunEnd, u32>) -> RunNumbers {
        match answer {
            Ok(end) => RunNumbers {
                number: 0,
                outcome: outcome_number(end.outcome),
                steps: end.steps,
                left: end.left,
                used: end.used,
            },
            // A refused run hands nothing back but its number.
            Err(number) => RunNumbers {
                number,
                outcome: outcome_number(Outcome::Refused),
                steps: 0,
                left: 0,
                used: 0,
            },
        }
    }
}

pub fn answer(outcome: Outcome, tally: Tally, used: u32) -> RunEnd
    ensures { as_run_answer result ≡ answered outcome tally used }
{
    RunEnd {
        outcome,
        steps: tally.steps,
        left: tally.left,
        used,
    }
}
