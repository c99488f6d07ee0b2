// The stepper's run: rows 1 to 6, 15 and 16, and then one step after another in the lent buffer and store.
#![tactic(auto)]

ghost use Rattle.std.specs.Prelude.{◌≡◌, length};
ghost use Rattle.rules.specs.Syntax.{Block};
ghost use Rattle.record.specs.Refusal.{refusal_number};
ghost use Rattle.run.specs.Represents.{run_answer_of};
ghost use Rattle.stepper.specs.RunStepper.{run_stepper};
ghost use Rattle.stepper.specs.Running.{Accepted, Gives, accepted_run};

use checker::some_above;
use command::look;
use plan::outcome_of;
use program_checker::check_program;
use record::Header;
use record::refusal::Refusal;
use run::{RunEnd, Tally};
use stepping::perform;

// The run of what the rows let through. The bytes behind the record are made zero first, and every step leaves them so; room is
// looked for in the whole lent buffer.
pub fn run_accepted(
    buf: &mut [u8],
    used: usize,
    h: Header,
    store: &mut [u32],
    budget: u32,
) -> RunEnd
    requires { (P : Block) × Accepted h P buf.old used store.old }
    ensures { (P : Block) → Accepted h P buf.old used store.old → Gives result buf.new store.new (accepted_run h P (length buf.old) store.old budget) }
{
    let contents = h.contents_at();
    let largest = h.largest();
    let room = buf.len();
    buffer::zero(buf, used, room - used);
    let mut size = used;
    let mut tally = Tally::start(budget);
    loop {
        let plan = look(buf, size, store, contents, largest);
        let outcome = outcome_of(plan, size, room);
        if run::ends(outcome, tally) {
            return run::answer(outcome, tally, size as u32);
        }
        size = perform(buf, size, store, plan, contents);
        tally = tally.advance();
    }
}

// The call: a refusal comes before anything is written.
pub fn run_stepper(
    buf: &mut [u8],
    used: usize,
    store: &mut [u32],
    budget: u32,
) -> Result<RunEnd, Refusal>
    ensures { (run_answer_of refusal_number result ≡ (run_stepper buf.old used store.old budget).answer) × (buf.new ≡ (run_stepper buf.old used store.old budget).buf) × (store.new ≡ (run_stepper buf.old used store.old budget).store) }
{
    let h = check_program(buf, used)?;
    if store.len() != h.k as usize {
        return Err(Refusal::BadStore);
    }
    if some_above(store, h.largest()) {
        return Err(Refusal::ValueAboveCeiling);
    }
    Ok(run_accepted(buf, used, h, store, budget))
}
