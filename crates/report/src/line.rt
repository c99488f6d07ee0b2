// The program's line: the input's refusals, the two runs, the printing.
ghost use Rattle.std.specs.Prelude.{◌≡◌, List, ℕ, ◌*◌, ◌≤◌, length, take};
ghost use Rattle.report.specs.Line as spec;
ghost use Rattle.report.specs.Line.{program_budget, program_buffer, reducer_from, runs_line, values_in};
ghost use Rattle.report.specs.Reads.{Reads};
ghost use Rattle.record.specs.Refusal.{refusal_number};
ghost use Rattle.run.specs.Represents.{as_outcome, run_answer_of};
ghost use Rattle.reducer.specs.Represents.{answer_of};
ghost use Rattle.stepper.specs.RunStepper.{run_stepper};
ghost use Rattle.term.specs.Answer.{substituted_of};
ghost use Rattle.term.specs.Calls.{substitute_call};

use crate::input::{check_input, read_values};
use buffer::{get_u16, zero};
use checker::some_above;
use print::{put_ran, put_refused};
use record::limit::VARIABLES;
use record::refusal::Refusal;
use reducer::answer::Reduced;
use reducer::run_reducer;
use run::{Outcome, RunEnd};
use stepper::run_stepper;
use term::substitute::{Filled, substitute};
use term::translate::translate;

const BUDGET: u32 = 1000000;

// How a run ended, as the line shows it: one that was refused made no step.
fn shown(answer: Result<RunEnd, Refusal>) -> RunEnd
    ensures outcome { as_outcome result.outcome ≡ (run_answer_of refusal_number answer).outcome }
    ensures steps { result.steps ≡ (run_answer_of refusal_number answer).steps }
{
    answer.unwrap_or(RunEnd {
        outcome: Outcome::Refused,
        steps: 0,
        left: 0,
        used: 0,
    })
}

// The used length that substituting left, 0 where it was refused.
fn used_of(filled: Result<Filled, Refusal>) -> usize
    ensures { (b : List ℕ) → result ≡ (substituted_of filled b).used }
{
    match filled {
        Ok(filled) => filled.used as usize,
        Err(_) => 0,
    }
}

// The reducer's run without its count of replaced variables.
fn end_of(reduced: Result<Reduced, Refusal>) -> Result<RunEnd, Refusal>
    ensures { run_answer_of refusal_number result ≡ answer_of reduced }
{
    match reduced {
        Ok(reduced) => Ok(reduced.end),
        Err(refusal) => Err(refusal),
    }
}

// Both runs, each in its buffer, and their line in the reducer's, which is free by then. The store is filled in before the
// stepper changes it.
fn run_both(a: &mut [u8], said: usize, b: &mut [u8], used: usize, store: &mut [u32]) -> usize
    requires { (length b.old ≡ program_buffer) × (length store.old ≤ 16) }
    ensures { (take result b.new ≡ runs_line (run_stepper a.old said store.old program_budget) (reducer_from (substitute_call b.old used store.old))) × (result ≤ 256) }
{
    let filled = used_of(substitute(b, used, store));
    let stepper = run_stepper(a, said, store, BUDGET);
    let reducer = run_reducer(b, filled, BUDGET);
    put_ran(b, shown(stepper), shown(end_of(reducer)), store)
}

// The first r bytes of the reducer's buffer are the line.
pub fn line(a: &mut [u8], b: &mut [u8], behind: &[u8], total: usize) -> usize
    requires { (length a.old ≡ program_buffer) × (length b.old ≡ program_buffer) }
    ensures { ((input : List ℕ) → Reads input a.old b.old behind.now total → take result b.new ≡ spec.line input) × (result ≤ 256) }
{
    let h = match check_input(a, total) {
        Ok(h) => h,
        Err(refusal) => return put_refused(b, refusal.number()),
    };
    // Of an input that was read as `Reads` says, row 6 is tested already and this never holds.
    if behind.len() < 4 * h.k as usize {
        return put_refused(b, Refusal::BadStore.number());
    }
    let mut values = [0; VARIABLES as usize];
    let store = &mut values[..h.k as usize];
    read_values(behind, store);
    if some_above(store, record::read_header(a).largest()) {
        return put_refused(b, Refusal::ValueAboveCeiling.number());
    }
    let said = get_u16(a, 0);
    let used = match translate(&a[..said], said, b) {
        Ok(used) => used,
        Err(refusal) => return put_refused(b, refusal.number()),
    };
    zero(a, said, a.len() - said);
    run_both(a, said, b, used as usize, store)
}
