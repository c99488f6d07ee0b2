// The reducer's run: rows 1 to 5, 15 and 7, and then one reduction after another in the lent buffer.
#![tactic(auto)]

pub mod answer;

ghost use Rattle.std.specs.Prelude.{length};
ghost use Rattle.rules.specs.Syntax.{Term};
ghost use Rattle.reducer.specs.RunReducer.{run_reducer};
ghost use Rattle.reducer.specs.Running.{Accepted, Answers, Gives, accepted_run};

use crate::answer::Reduced;
use plan::outcome_of;
use record::Header;
use record::refusal::Refusal;
use redex::look;
use reducing::perform;
use run::Tally;
use substitution::closed::is_closed;
use term_checker::check_term;

// The run of what the rows let through, a closed term. The bytes behind the record are made zero first, and every
// reduction leaves them so; room is looked for in the whole lent buffer.
pub fn run_accepted(buf: &mut [u8], used: usize, h: Header, budget: u32) -> Reduced
    requires { (t : Term) × Accepted h t buf.old used }
    ensures { (t : Term) → Accepted h t buf.old used → Gives result buf.new (accepted_run h t (length buf.old) budget) }
{
    let k = h.k;
    let contents = h.contents_at();
    let largest = h.largest();
    let room = buf.len();
    buffer::zero(buf, used, room - used);
    let mut size = used;
    let mut replaced = 0;
    let mut tally = Tally::start(budget);
    loop {
        let plan = look(buf, k, contents, largest);
        let outcome = outcome_of(plan, size, room);
        if run::ends(outcome, tally) {
            return Reduced {
                end: run::answer(outcome, tally, size as u32),
                replaced,
            };
        }
        let reduction = perform(buf, size, k, plan, contents);
        size = reduction.used;
        replaced += reduction.replaced as u64;
        tally = tally.advance();
    }
}

// The call: a refusal comes before anything is written.
pub fn run_reducer(buf: &mut [u8], used: usize, budget: u32) -> Result<Reduced, Refusal>
    ensures { Answers result buf.new (run_reducer buf.old used budget) }
{
    let h = check_term(buf, used)?;
    if !is_closed(buf, used, h) {
        return Err(Refusal::FreeVariable);
    }
    Ok(run_accepted(buf, used, h, budget))
}
