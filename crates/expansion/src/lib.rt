// The configuration that a state of the counting stepper expands to (02 C-14), over bytes: its length, and its writing out.
// Works on a checked program and on words that hold a state of it, and needs no stack: the entries are walked from the
// outermost inwards.
#![tactic(auto)]

ghost use Rattle.std.specs.Prelude.{◌≡◌, false, true, List, ◌+◌, ◌-◌, ◌*◌, ◌≤◌, ◌<◌, ◌^◌, ℕ, get_or, length};
ghost use Rattle.buffer.specs.Slice.{put};
ghost use Rattle.rules.specs.Syntax.{Block};
ghost use Rattle.record.specs.Program.{encode_block};
ghost use Rattle.counting.specs.Counting.{State, expand};
ghost use Rattle.counting.specs.Size.{expand_size};
ghost use Rattle.expansion.specs.Entry.{as_held, first_size, inside_of, opens, to_come};
ghost use Rattle.record.specs.Kind.{kind_number};
ghost use Rattle.expansion.specs.Pieces.{around_bytes, first_bytes, led_bytes, rest_bytes, turn_bytes, turns_bytes};
ghost use Rattle.expansion.specs.Walk.{Given, IsHeld};
ghost use Rattle.expansion.specs.Writing.{Narrowed};

use edit::{put_head, put_lead};
use moves::copy;
use record::kind::Kind;
use state_words::program::Program;
use state_words::{EntryWords, NONE, OPEN_BLOCK, WORDS, entry};

// How many entries the words have room for.
const ENTRIES: usize = 31;

// The progress of a loop whose index is still to be stored.
// Kept: a number, as C lends it in a word; `progress_of` (counting's specs/Held.antt) says what it stands for.
const TO_STORE: u32 = 1;

// The n bytes at `at` of a program's.
#[derive(Clone, Copy)]
struct Piece<'a> {
    bytes: &'a [u8],
    at: usize,
    n: usize,
}

// The place in the output that is still to be filled. What stands in front in it is written in front, and what stands behind
// at its end; so what is open need not be remembered.
#[derive(Clone, Copy)]
struct Hole {
    front: usize,
    back: usize,
}

// Whether the walk goes on inside an entry.
fn opens(held: EntryWords) -> bool
    ensures { result ≡ opens (as_held held) }
{
    match held.what {
        NONE => false,
        OPEN_BLOCK => true,
        _ => TO_STORE < held.progress,
    }
}

// The place at which it goes on.
fn inside_place(held: EntryWords) -> usize
    requires { opens (as_held held) ≡ true }
    ensures { (result ≡ inside_of (as_held held)) × (result < 2 ^ 32) }
{
    let progress = held.progress as usize;
    if held.what == OPEN_BLOCK {
        progress
    } else {
        progress - 2
    }
}

// How many turns of an entry are still to come.
fn to_come(held: EntryWords) -> u32
    requires { IsHeld (as_held held) }
    ensures { result ≡ to_come (as_held held) }
{
    if held.what == OPEN_BLOCK {
        0
    } else {
        held.top - held.reached
    }
}

// The length of the turns to come, each as long as the loop's record of n bytes, and of what is behind the record.
fn around_size(held: EntryWords, n: usize, behind: usize) -> u64
    requires { (IsHeld (as_held held)) × (n ≤ 16384) × (behind ≤ 16384) }
    ensures { (result ≡ to_come (as_held held) * n + behind) × (result ≤ 2 ^ 46 + 16384) }
{
    u64::from(to_come(held)) * n as u64 + behind as u64
}

// The length of what a loop of n bytes stands for within which nothing is open, but for its turns to come.
fn first_size(held: EntryWords, n: usize) -> usize
    ensures { result ≡ first_size held.progress held.running n }
{
    if held.progress == TO_STORE || held.running == 0 {
        n
    } else {
        4
    }
}

// The length of the commands that the state expands to. It is measured before a byte is written, and can be far above what any
// buffer holds.
pub fn expansion_size(program: Program, words: &[u32; WORDS]) -> u64
    requires { ((P : Block) × (s : State) × Given program.bytes.now program.used words.now program.start P s) × (length program.bytes.now ≤ 16384) }
    ensures { ((P : Block) → (s : State) → Given program.entry.bytes.now program.entry.used words.now program.entry.start P s → result ≡ expand_size s) × (result < 2 ^ 52) }
{
    let mut total = 0;
    let mut p = words[0] as usize;
    let mut end = program.used - program.start;
    for i in 0..ENTRIES {
        let held = entry(words, i);
        if held.what == NONE {
            break;
        }
        let n = program.size_at(p);
        total += around_size(held, n, end - (p + n));
        if !opens(held) {
            return total + first_size(held, n) as u64;
        }
        total += 4;
        end = p + n;
        p = inside_place(held);
    }
    total + (end - p) as u64
}

// An assignment or a loop of `size` bytes, of the variable of the piece and with the literal v, and behind it the piece from
// `skip` on.
fn write_led(piece: Piece, skip: usize, kind: Kind, size: usize, v: u32, out: &mut [u8], o: usize)
    requires { (8 ≤ piece.n) × (skip ≤ piece.n) × (piece.at + piece.n ≤ length piece.bytes.now) × (o + 16 + (piece.n - skip) ≤ length out.old) }
    ensures { out.new ≡ put out.old o (led_bytes piece.entry.bytes.now piece.entry.at (kind_number kind) size v (piece.entry.at + skip) (piece.entry.n - skip)) }
{
    let x = buffer::get_u32(piece.bytes, piece.at + 4);
    put_lead(out, o, kind, size, x, Kind::Literal, v);
    copy(piece.bytes, piece.at + skip, out, o + 16, piece.n - skip);
}

// The turn v of the loop that is the piece: its index's assignment, and the body.
fn write_turn(piece: Piece, v: u32, out: &mut [u8], o: usize)
    requires { (20 ≤ piece.n) × (piece.at + piece.n ≤ length piece.bytes.now) × (o + piece.n ≤ length out.old + 4) }
    ensures { out.new ≡ put out.old o (turn_bytes piece.entry.bytes.now piece.entry.at piece.entry.n v) }
{
    write_led(piece, 20, Kind::Assignment, 16, v, out, o);
}

// The turns that come after turn `reached` of the loop, the last first: a turn's block has all the turns before it in it, so its
// head goes in front, and its index's assignment and the body at the end.
fn write_turns(piece: Piece, reached: u32, turns: u32, out: &mut [u8], hole: Hole) -> Hole
    requires { (20 ≤ piece.n) × (piece.at + piece.n ≤ length piece.bytes.now) × (hole.back ≤ length out.old) × (reached + turns < 2 ^ 32) × ((m : List ℕ) × (hole.front + length (turns_bytes piece.bytes.now piece.at piece.n reached m turns) ≡ hole.back)) }
    ensures { (m : List ℕ) → hole.front + length (turns_bytes piece.entry.bytes.now piece.entry.at piece.entry.n reached m turns) ≡ hole.back → Narrowed out.old out.new hole.front (turns_bytes piece.entry.bytes.now piece.entry.at piece.entry.n reached m turns) result.front result.back m }
{
    let mut first = hole.front;
    let mut last = hole.back;
    for done in 0..turns {
        let left = turns - done;
        put_head(out, first, Kind::Block, last - first);
        first += 4;
        last -= piece.n - 4;
        write_turn(piece, reached + left, out, last);
    }
    Hole {
        front: first,
        back: last,
    }
}

// What is behind the record that an entry holds open, `behind` bytes, and its turns to come.
fn write_around(piece: Piece, held: EntryWords, behind: usize, out: &mut [u8], hole: Hole) -> Hole
    requires { (IsHeld (as_held held)) × (0 < to_come (as_held held) → 20 ≤ piece.n) × (piece.at + piece.n + behind ≤ length piece.bytes.now) × (hole.back ≤ length out.old) × ((m : List ℕ) × (hole.front + length (around_bytes piece.bytes.now piece.at piece.n behind held.reached (to_come (as_held held)) m) ≡ hole.back)) }
    ensures { (m : List ℕ) → hole.front + length (around_bytes piece.entry.bytes.now piece.entry.at piece.entry.n behind held.reached (to_come (as_held held)) m) ≡ hole.back → Narrowed out.old out.new hole.front (around_bytes piece.entry.bytes.now piece.entry.at piece.entry.n behind held.reached (to_come (as_held held)) m) result.front result.back m }
{
    let rest = hole.back - behind;
    copy(piece.bytes, piece.at + piece.n, out, rest, behind);
    let inner = Hole {
        front: hole.front,
        back: rest,
    };
    let turns = to_come(held);
    if turns == 0 {
        return inner;
    }
    write_turns(piece, held.reached, turns, out, inner)
}

// What a loop stands for within which nothing is open, but for its turns to come: its index's assignment and the body in a
// block, the loop with the literal that is left in it, or an empty block.
fn write_first(piece: Piece, held: EntryWords, out: &mut [u8], o: usize)
    requires { (20 ≤ piece.n) × (piece.at + piece.n ≤ length piece.bytes.now) × (o + first_size held.progress held.running piece.n ≤ length out.old) }
    ensures { out.new ≡ put out.old o (first_bytes held.progress held.running piece.entry.bytes.now piece.entry.at piece.entry.n held.reached) }
{
    if held.progress == TO_STORE {
        put_head(out, o, Kind::Block, piece.n);
        write_turn(piece, held.reached, out, o + 4);
    } else if held.running == 0 {
        write_led(piece, 16, Kind::Loop, piece.n, held.reached, out, o);
    } else {
        put_head(out, o, Kind::Block, 4);
    }
}

// What is left of a block, which is the piece: where a sum waits, its assignment has that for a literal.
fn write_rest(piece: Piece, words: &[u32; WORDS], out: &mut [u8], o: usize)
    requires { (piece.at + piece.n ≤ length piece.bytes.now) × (0 < get_or words.now 1 0 → 16 ≤ piece.n) × (o + piece.n ≤ length out.old) }
    ensures { out.new ≡ put out.old o (rest_bytes (get_or words.now 1 0) (get_or words.now 2 0) piece.entry.bytes.now piece.entry.at piece.entry.n) }
{
    if words[1] == 0 {
        copy(piece.bytes, piece.at, out, o, piece.n);
    } else {
        write_led(piece, 16, Kind::Assignment, 16, words[2], out, o);
    }
}

// The commands that the state expands to, written from `front` on; all else of the output is as it was.
pub fn write_expansion(program: Program, words: &[u32; WORDS], out: &mut [u8], front: usize)
    requires { ((P : Block) × (s : State) × Given program.bytes.now program.used words.now program.start P s × (front + expand_size s ≤ length out.old)) × (length program.bytes.now ≤ 16384) × (length out.old ≤ 16384) }
    ensures { (P : Block) → (s : State) → Given program.entry.bytes.now program.entry.used words.now program.entry.start P s → out.new ≡ put out.old front (encode_block (expand s)) }
{
    let mut hole = Hole {
        front,
        back: front + expansion_size(program, words) as usize,
    };
    let mut p = words[0] as usize;
    let mut end = program.used - program.start;
    for i in 0..ENTRIES {
        let held = entry(words, i);
        if held.what == NONE {
            break;
        }
        let piece = Piece {
            bytes: program.bytes,
            at: program.start + p,
            n: program.size_at(p),
        };
        hole = write_around(piece, held, end - (p + piece.n), out, hole);
        if !opens(held) {
            write_first(piece, held, out, hole.front);
            return;
        }
        put_head(out, hole.front, Kind::Block, hole.back - hole.front);
        hole.front += 4;
        end = p + piece.n;
        p = inside_place(held);
    }
    let rest = Piece {
        bytes: program.bytes,
        at: program.start + p,
        n: end - p,
    };
    write_rest(rest, words, out, hole.front);
}
