// The calls of the counting stepper (02 C-14): here its run, the rows and then one step after another in the lent words and store.
// It never answers no room.
#![tactic(auto)]

pub mod answer;
pub mod check;
pub mod expand;

ghost use Rattle.std.specs.Prelude.{◌≡◌};
ghost use Rattle.rules.specs.Syntax.{Block};
ghost use Rattle.counting.specs.Counting.{State};
ghost use Rattle.counting.specs.CountingCall.{counted_to, counts, run_counting};
ghost use Rattle.counting.specs.CountingMeaning.{Passes};
ghost use Rattle.record.specs.Refusal.{refusal_number};
ghost use Rattle.run.specs.Represents.{run_answer_of};
ghost use Rattle.count_run.specs.Gives.{Gives};

use canonical::{make_canonical, open_count};
use count_run::run_words;
use record::Header;
use record::refusal::Refusal;
use run::RunEnd;
use state_words::program::Program;

// The run of what the rows let through. Words that a state does not hold are made 0 first, and every step leaves them so.
fn run_accepted(
    program: &[u8],
    used: usize,
    h: Header,
    state: &mut [u32; 189],
    store: &mut [u32],
    budget: u32,
) -> RunEnd
    requires { (P : Block) × (s : State) × Passes h P program.now used state.old store.old s }
    ensures { (P : Block) (s : State) → Passes h P program.now used state.entry.now store.old s → Gives result state.exit.now store.new (counted_to P budget (counts h budget (record { state = s; store = store.old }))) }
{
    let start = h.contents_at() + 4;
    let largest = h.largest();
    make_canonical(state);
    let n = open_count(state);
    let counted = Program {
        bytes: program,
        used,
        start,
        largest,
    };
    run_words(counted, state, n, store, budget)
}

// The call: a refusal comes before anything is written. The words are lent, and a step changes one entry of them in place.
pub fn run_counting(
    program: &[u8],
    used: usize,
    state: &mut [u32; 189],
    store: &mut [u32],
    budget: u32,
) -> Result<RunEnd, Refusal>
    ensures { (run_answer_of refusal_number result ≡ (run_counting program.now used state.old store.old budget).answer) × (state.new ≡ (run_counting program.now used state.old store.old budget).words) × (store.new ≡ (run_counting program.now used state.old store.old budget).store) }
{
    let h = check::check(program, used, state, store)?;
    Ok(run_accepted(program, used, h, state, store, budget))
}
