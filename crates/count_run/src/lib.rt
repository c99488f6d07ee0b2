// The run of the counting stepper (02 C-14): one step after another in the lent words and store. It never answers no room.
#![tactic(auto)]

ghost use Rattle.std.specs.Prelude.{◌≡◌, length};
ghost use Rattle.record.specs.declared.Header.{Header};
ghost use Rattle.record.specs.Header.{largest_of};
ghost use Rattle.rules.specs.Syntax.{Block};
ghost use Rattle.counting.specs.Counting.{State};
ghost use Rattle.counting.specs.CountingCall.{counted_to, counts};
ghost use Rattle.count_step.specs.Inner.{Holds};
ghost use Rattle.count_step.specs.Standing.{SomeState};
ghost use Rattle.count_run.specs.Gives.{Gives};

use count_step::look::look;
use count_step::make::make;
use count_step::standing::way_of;
use run::{RunEnd, Tally};
use state_words::WORDS;
use state_words::program::Program;

// The run of the program from the state that the words hold, n being open in it. No record is left, so the answer's used length
// is 0.
pub fn run_words(
    program: Program,
    words: &mut [u32; WORDS],
    n: usize,
    store: &mut [u32],
    budget: u32,
) -> RunEnd
    requires { SomeState program.start program.used n program.bytes.now words.old (length store.old) }
    ensures { (h : Header) (P : Block) (s : State) → program.entry.largest ≡ largest_of h → Holds program.entry.start program.entry.used n P s program.entry.bytes.now words.old (length store.old) → Gives result words.new store.new (counted_to P budget (counts h budget (record { state = s; store = store.old }))) }
{
    let mut many = n;
    let mut tally = Tally::start(budget);
    loop {
        let way = way_of(program, words, many);
        let outcome = look(program, words, many, store, way);
        if run::ends(outcome, tally) {
            return run::answer(outcome, tally, 0);
        }
        many = make(program, words, many, store, way);
        tally = tally.advance();
    }
}
