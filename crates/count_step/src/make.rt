// A step made.
ghost use Rattle.count_step.specs.Makes.{IsFlat, MakesAs, StandsOn};
ghost use Rattle.count_step.specs.Standing.{IsWay, MakesStep, SomeGoing};

use crate::standing::{Standing, Way, open_at};
use crate::ways::{step_assign, step_close, step_enter, step_shut, step_sum};
use state_words::WORDS;
use state_words::program::Program;

// The step where no block can be opened any more, by what stands there: an end, an assignment, or a loop.
pub fn step_here(
    program: Program,
    words: &mut [u32; WORDS],
    n: usize,
    store: &mut [u32],
    here: Standing,
) -> usize
    requires { StandsOn program.start n (IsFlat here) program.bytes.now words.old store.old }
    ensures { MakesAs program.entry.start n (IsFlat here) program.entry.bytes.now words.old store.old words.new store.new result }
{
    match here {
        Standing::End => step_close(program, words, n),
        Standing::Assignment => {
            step_assign(program, words, n, store);
            n
        }
        _ => step_enter(program, words, n, store),
    }
}

// The next step of the state that the words hold, which has one and goes that way. Answers how many are open in the state after.
pub fn make(
    program: Program,
    words: &mut [u32; WORDS],
    n: usize,
    store: &mut [u32],
    way: Way,
) -> usize
    requires { SomeGoing program.start program.used n program.bytes.now words.old store.old × IsWay program.start program.used n program.bytes.now words.old way }
    ensures { MakesStep program.entry.start program.entry.used n program.entry.bytes.now words.old store.old words.new store.new result }
{
    match way {
        Way::Shut => step_shut(program, words, n, store),
        Way::Waits => {
            step_sum(program, words, n, store);
            n
        }
        Way::Here(first) => {
            let (many, here) = open_at(program, words, n, first);
            step_here(program, words, many, store, here)
        }
    }
}
