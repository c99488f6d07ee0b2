// What the next step comes to, looked up before a word is written.
ghost use Rattle.std.specs.Prelude.{◌≡◌, ◌+◌, length};
ghost use Rattle.rules.specs.Scope.{BlockWithin};
ghost use Rattle.rules.specs.Store.{up_to};
ghost use Rattle.rules.specs.Syntax.{Block};
ghost use Rattle.place.specs.Path.{Spot};
ghost use Rattle.place.specs.ProgramView.{BlockAt};
ghost use Rattle.run.specs.Represents.{as_outcome};
ghost use Rattle.counting.specs.Counting.{State};
ghost use Rattle.count_step.specs.Inner.{Holds};
ghost use Rattle.count_step.specs.Makes.{reads_as};
ghost use Rattle.count_step.specs.Standing.{IsWay, SomeState, over_first};

use crate::standing::{Standing, Way};
use record::kind::Kind;
use run::Outcome;
use run::value::value_of;
use state_words::program::Program;
use state_words::{WORDS, place};

// Whether the command at the place i is a plus one of the largest value.
fn over_at(program: Program, i: usize, store: &[u32]) -> bool
    requires { (b : Block) × (Spot b × (BlockAt program.bytes.now (program.start + i) b × BlockWithin (length store.now) b)) }
    ensures { (b : Block) → Spot b → BlockAt program.entry.bytes.now (program.entry.start + i) b → BlockWithin (length store.now) b → result ≡ over_first (up_to program.entry.largest) b store.now }
{
    match program.record_at(i) {
        Kind::Assignment => match program.kind_at(i) {
            Kind::PlusOne => program.largest <= value_of(store, program.number_at(i)),
            _ => false,
        },
        _ => false,
    }
}

// The outcome that the state reads, n being open in it, whose next step goes that way. Spent says that a step can be made; the
// budget has not been looked at. Blocks that stand first are looked into, not opened: a step that is over leaves them as they are.
pub fn look(program: Program, words: &[u32; WORDS], n: usize, store: &[u32], way: Way) -> Outcome
    requires { SomeState program.start program.used n program.bytes.now words.now (length store.now) × IsWay program.start program.used n program.bytes.now words.now way }
    ensures { (P : Block) (s : State) → Holds program.entry.start program.entry.used n P s program.entry.bytes.now words.now (length store.now) → as_outcome result ≡ reads_as (up_to program.entry.largest) s store.now }
{
    let Way::Here(here) = way else {
        return Outcome::Spent;
    };
    if let Standing::End = here {
        return if n == 0 {
            Outcome::Finished
        } else {
            Outcome::Spent
        };
    }
    let i = place(words, n);
    let levels = command::open_levels(program.bytes, program.start + i);
    if over_at(program, i + 4 * levels, store) {
        Outcome::Over
    } else {
        Outcome::Spent
    }
}
