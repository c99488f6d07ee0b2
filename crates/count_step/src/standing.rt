// What stands at the innermost place, and the blocks that are opened there.
ghost use Rattle.std.specs.Prelude.{◌≡◌, ℕ, List};
ghost use Rattle.rules.specs.Syntax.{Block};
ghost use Rattle.counting.specs.Counting.{here};
ghost use Rattle.counting.specs.Entries.{Entry};
ghost use Rattle.count_step.specs.Inner.{Inner};
ghost use Rattle.count_step.specs.Standing.{HereIn, IsWay, Opened, SomeState, inner_end, kind_of};
ghost use Rattle.count_step.specs.declared.standing.Standing.TheVariants as standing;

use crate::turns::is_shut;
use record::kind::Kind;
use state_words::program::Program;
use state_words::{EntryWords, WORDS, entry, place, push};

// What stands at a place: the end of the block that the place is in, or a command.
#[derive(Clone, Copy)]
pub enum Standing {
    End,
    Block,
    Assignment,
    Loop,
}

// The way that a step goes: a shut loop's, a sum's that waits, or that of what stands at the innermost place.
#[derive(Clone, Copy)]
pub enum Way {
    Shut,
    Waits,
    Here(Standing),
}

// Where the innermost block ends: where the record of its entry does, or the program.
pub fn inner_end(program: Program, words: &[u32; WORDS], n: usize) -> usize
    requires { HereIn program.start program.used n program.bytes.now words.now }
    ensures { (P : Block) (es : List Entry) (i : ℕ) (r : Block) (count : ℕ) → Inner program.entry.start program.entry.used n P es i r (here r) program.entry.bytes.now words.now count → result ≡ inner_end es P }
{
    if n == 0 {
        return program.used - program.start;
    }
    let at = entry(words, n - 1).at as usize;
    at + program.size_at(at)
}

// What stands there.
pub fn innermost(program: Program, words: &[u32; WORDS], n: usize) -> Standing
    requires { HereIn program.start program.used n program.bytes.now words.now }
    ensures { (P : Block) (es : List Entry) (i : ℕ) (r : Block) (count : ℕ) → Inner program.entry.start program.entry.used n P es i r (here r) program.entry.bytes.now words.now count → result ≡ kind_of r }
{
    let i = place(words, n);
    if i == inner_end(program, words, n) {
        return Standing::End;
    }
    match program.record_at(i) {
        Kind::Block => Standing::Block,
        Kind::Assignment => Standing::Assignment,
        _ => Standing::Loop,
    }
}

// The way that the next step goes.
pub fn way_of(program: Program, words: &[u32; WORDS], n: usize) -> Way
    requires { (count : ℕ) × SomeState program.start program.used n program.bytes.now words.now count }
    ensures { IsWay program.entry.start program.entry.used n program.entry.bytes.now words.now result }
{
    // Kept: that a sum waits is a word, as C lends it; `IsWay` (specs/Standing.antt) says that it does where the word is 1.
    if is_shut(words, n) {
        Way::Shut
    } else if words[1] == 1 {
        Way::Waits
    } else {
        Way::Here(innermost(program, words, n))
    }
}

// The blocks that stand there one in the other are opened, which is no step; where no block stands nothing is done. Answers how
// many are open then, and what stands there.
pub fn open_blocks(program: Program, words: &mut [u32; WORDS], n: usize) -> (usize, Standing)
    requires { HereIn program.start program.used n program.bytes.now words.old }
    ensures { (P : Block) (es : List Entry) (i : ℕ) (r : Block) (count : ℕ) → Inner program.entry.start program.entry.used n P es i r (here r) program.entry.bytes.now words.old count → ((o : Opened program.entry.start program.entry.used result.0 P es r program.entry.bytes.now words.new count) × (result.1 ≡ kind_of o.left) × (result.1 ≡ standing.Block → ⊥)) }
{
    let mut many = n;
    let mut inside = innermost(program, words, n);
    while let Standing::Block = inside {
        let i = place(words, many) as u32;
        push(words, many, EntryWords::block(i, i + 4));
        many += 1;
        inside = innermost(program, words, many);
    }
    (many, inside)
}

// The same by what stands there, which the caller has read: where it is no block nothing is done.
pub fn open_at(
    program: Program,
    words: &mut [u32; WORDS],
    n: usize,
    first: Standing,
) -> (usize, Standing)
    requires { HereIn program.start program.used n program.bytes.now words.old }
    ensures { (P : Block) (es : List Entry) (i : ℕ) (r : Block) (count : ℕ) → Inner program.entry.start program.entry.used n P es i r (here r) program.entry.bytes.now words.old count → first ≡ kind_of r → ((o : Opened program.entry.start program.entry.used result.0 P es r program.entry.bytes.now words.new count) × (result.1 ≡ kind_of o.left) × (result.1 ≡ standing.Block → ⊥)) }
{
    match first {
        Standing::Block => open_blocks(program, words, n),
        _ => (n, first),
    }
}
