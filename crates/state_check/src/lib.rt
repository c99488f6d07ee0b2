// Whether words hold a state of the program (02 C-14, refusal 13): the entries from the outermost inwards, over the words and
// the program's bytes.
#![tactic(auto)]

pub mod counts;

ghost use Rattle.std.specs.Prelude.{◌≡◌, ◌+◌, ◌≤◌, get_or, length};
ghost use Rattle.record.specs.Program.{block_size};
ghost use Rattle.rules.specs.Syntax.{Block};
ghost use Rattle.place.specs.ProgramView.{BlockAt};
ghost use Rattle.counting.specs.Place.{rest_at};
ghost use Rattle.counting.specs.ReadState.{is_right, read_here};
ghost use Rattle.counting.specs.StateWords.{decode_state};
ghost use Rattle.canonical.specs.Canonical.{held_of};
ghost use Rattle.state_check.specs.Class.{ClassOf, inside_of, is_some, loop_class, shut_class};

use canonical::open_count;
use record::kind::Kind;
use state_words::program::Program;
use state_words::{EntryWords, WORDS, entry};

// What an entry is that is right so far: a loop with nothing inside it to be read, or a block or a loop at a place in its body,
// with what is inside still to be read.
#[derive(Clone, Copy, Drop)]
enum Class {
    Shut,
    InBlock,
    InBody,
}

impl Class {
    // The length of the head before what is inside, and what is added to a place there where it is held.
    fn inside(self) -> Option<(usize, usize)>
        ensures { result ≡ inside_of self }
    {
        match self {
            Class::Shut => None,
            Class::InBlock => Some((4, 0)),
            Class::InBody => Some((20, 2)),
        }
    }
}

// A place p in the innermost holder that is known so far, of which the commands stand from the place `first` to `end`.
#[derive(Clone, Copy, Drop)]
struct Inner {
    first: usize,
    end: usize,
    p: usize,
}

// Whether a command or the end stands there.
fn stands_at(program: Program, at: Inner) -> bool
    requires { ((b : Block) × (BlockAt program.bytes.now (program.start + at.first) b × (at.first + block_size b ≡ at.end))) × (length program.bytes.now ≤ 16384) }
    ensures { (b : Block) → BlockAt program.entry.bytes.now (program.entry.start + at.first) b → at.first + block_size b ≡ at.end → result ≡ is_some (rest_at b at.first at.p) }
{
    let mut q = at.first;
    // Kept: a walk from command to command, by the length that each begins with; an iterator would need a closure that hands on the place.
    while q < at.end {
        if at.p == q {
            return true;
        }
        q += program.size_at(q);
    }
    at.p == q
}

// A loop within which nothing can be open and no sum can wait.
#[tactic(auto, unfolding(crate::specs::Class::shut_class))]
fn shut_class(last: bool, waits: u32) -> Option<Class>
    ensures { result ≡ shut_class last waits }
{
    (last && waits == 0).then_some(Class::Shut)
}

// A loop in play: nothing is inside it where it unrolls, has reached no count or has its index still to be stored.
#[tactic(auto, unfolding(crate::specs::Class::loop_class))]
fn loop_class(entry: EntryWords, shut: Option<Class>) -> Option<Class>
    ensures { result ≡ loop_class entry.running entry.reached entry.progress shut }
{
    match (entry.running, entry.reached, entry.progress) {
        (0, _, 0) | (_, 0, 0) | (1.., 1.., 1) => shut,
        (1.., 1.., 2..) => Some(Class::InBody),
        _ => None,
    }
}

// An entry, where something is left of its holder from the place p to `end`: None where it is wrong. Whether it is the last, and
// whether a sum waits, which is where that is not 0.
fn entry_class(
    program: Program,
    at: Inner,
    entry: EntryWords,
    last: bool,
    waits: u32,
) -> Option<Class>
    requires { (r : Block) × (BlockAt program.bytes.now (program.start + at.p) r × (at.p + block_size r ≡ at.end)) }
    ensures { (r : Block) → BlockAt program.entry.bytes.now (program.entry.start + at.p) r → at.p + block_size r ≡ at.end → ClassOf waits last (held_of entry) at.p r result }
{
    if at.p == at.end || entry.at as usize != at.p {
        return None;
    }
    match program.record_at(at.p) {
        Kind::Assignment => None,
        Kind::Block => (entry.what == 1).then_some(Class::InBlock),
        _ => {
            if entry.what != 2 || entry.top < entry.reached {
                return None;
            }
            loop_class(entry, shut_class(last, waits))
        }
    }
}

// Whether what waits at the innermost place can: nothing, or a sum where a plus one or minus one stands.
fn last_right(program: Program, words: &[u32; WORDS], at: Inner) -> bool
    requires { (r : Block) × (BlockAt program.bytes.now (program.start + at.p) r × (at.p + block_size r ≡ at.end)) }
    ensures { (r : Block) → BlockAt program.entry.bytes.now (program.entry.start + at.p) r → at.p + block_size r ≡ at.end → result ≡ is_right (read_here (get_or words.now 1 0) (get_or words.now 2 0) r) }
{
    if words[1] == 0 {
        return true;
    }
    if at.p == at.end {
        return false;
    }
    match program.record_at(at.p) {
        Kind::Assignment => matches!(program.kind_at(at.p), Kind::PlusOne | Kind::MinusOne),
        _ => false,
    }
}

// Whether the words hold a state of the program.
pub fn check_state(program: Program, words: &[u32; WORDS]) -> bool
    requires { ((P : Block) × (BlockAt program.bytes.now program.start P × (program.used ≡ program.start + block_size P))) × (length program.bytes.now ≤ 16384) × (program.used ≤ length program.bytes.now) }
    ensures { (P : Block) → BlockAt program.entry.bytes.now program.entry.start P → program.entry.used ≡ program.entry.start + block_size P → result ≡ is_right (decode_state P words.now) }
{
    let n = open_count(words);
    let mut at = Inner {
        first: 0,
        end: program.used - program.start,
        p: words[0] as usize,
    };
    for j in 0..n {
        if !stands_at(program, at) {
            return false;
        }
        let entry = entry(words, j);
        let Some(class) = entry_class(program, at, entry, j + 1 == n, words[1]) else {
            return false;
        };
        let Some((head, mark)) = class.inside() else {
            return true;
        };
        at = Inner {
            first: at.p + head,
            end: at.p + program.size_at(at.p),
            p: entry.progress as usize - mark,
        };
    }
    stands_at(program, at) && last_right(program, words, at)
}
