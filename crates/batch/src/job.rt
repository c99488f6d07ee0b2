// The jobs of a batch, one after the other in the same buffer. Each starts from the term itself, so what one leaves in the buffer
// changes none of the others.
ghost use Rattle.std.specs.Prelude.{◌≡◌, List, ℕ, ◌*◌, ◌+◌, ◌≤◌, length, take};
ghost use Rattle.record.specs.Header.{ok_of};
ghost use Rattle.rules.specs.Run.{is_finished};
ghost use Rattle.rules.specs.Sound.{SmallValues};
ghost use Rattle.rules.specs.Syntax.{Term};
ghost use Rattle.run.specs.Represents.{as_outcome};
ghost use Rattle.batch.specs.Represents.{as_reducer_call};
ghost use Rattle.batch.specs.RunBatch.{answer_of, answers_of, end_values, jobs, run_alone};
ghost use Rattle.batch.specs.Running.{Given, Values};

use moves::copy;
use numerals::copy_numerals;
use record::Header;
use reducer::answer::Reduced;
use reducer::run_accepted;
use run::{Outcome, outcome_number};
use substitution::substitute::substitute_record;

// The numerals of a finished term, and else zeros.
fn put_values(work: &[u8], h: Header, reduced: Reduced, values: &mut [u32])
    requires { (as_outcome reduced.end.outcome ≡ is_finished → ((vs : List ℕ) × Values h work.now reduced.end.used vs)) × (length work.now ≤ 16384) × (length values.old ≡ h.k) }
    ensures { values.new ≡ end_values h.k (as_outcome reduced.end.outcome) (as_reducer_call reduced work.now) }
{
    match reduced.end.outcome {
        Outcome::Finished => copy_numerals(work, reduced.end.used as usize, h, values),
        _ => values.fill(0),
    }
}

// The answer of a run that left its term in `work`.
fn put_answer(work: &[u8], h: Header, reduced: Reduced, answer: &mut [u32])
    requires { (as_outcome reduced.end.outcome ≡ is_finished → ((vs : List ℕ) × Values h work.now reduced.end.used vs)) × (length work.now ≤ 16384) × (length answer.old ≡ h.k + 2) }
    ensures { answer.new ≡ answer_of h.k (as_reducer_call reduced work.now) }
{
    answer[0] = outcome_number(reduced.end.outcome);
    answer[1] = reduced.end.steps;
    put_values(work, h, reduced, &mut answer[2..]);
}

// One job: a copy of the term with the store filled in, its run, and its answer. A numeral is as long as a variable, so the used
// length is the term's own until the run begins.
fn run_job(
    term: &[u8],
    used: usize,
    h: Header,
    work: &mut [u8],
    store: &[u32],
    budget: u32,
    answer: &mut [u32],
)
    requires { ((t : Term) × Given h t term.now used work.old) × (length store.now ≡ h.k) × SmallValues (ok_of h) store.now × (length answer.old ≡ h.k + 2) }
    ensures { answer.new ≡ answer_of h.k (run_alone (take used term.now) (length work.old) (record { store = store.entry.now; budget = budget })) }
{
    copy(term, 0, work, 0, used);
    substitute_record(work, used, h, store);
    let reduced = run_accepted(work, used, h, budget);
    put_answer(work, h, reduced, answer);
}

// Values and answers stand store after store, in the order of the budgets.
pub fn run_jobs(
    term: &[u8],
    used: usize,
    h: Header,
    work: &mut [u8],
    budgets: &[u32],
    values: &[u32],
    answers: &mut [u32],
)
    requires { ((t : Term) × Given h t term.now used work.old) × (length budgets.now ≤ 64) × (length values.now ≡ length budgets.now * h.k) × SmallValues (ok_of h) values.now × (length answers.old ≡ length budgets.now * (h.k + 2)) }
    ensures { answers.new ≡ answers_of h.k (take used term.now) (length work.old) (jobs h.k budgets.now values.now) }
{
    let k = h.k as usize;
    for (i, budget) in budgets.iter().enumerate() {
        let from = i * k;
        let at = i * (k + 2);
        run_job(
            term,
            used,
            h,
            work,
            &values[from..from + k],
            *budget,
            &mut answers[at..at + k + 2],
        );
    }
}
