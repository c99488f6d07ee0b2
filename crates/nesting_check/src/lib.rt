// Whether a program is nested over 32 deep (02 C-14, refusal 12): one pass over its bytes, with the ends of at most 32 rows, two
// bytes each.
#![tactic(auto)]

ghost use Rattle.std.specs.Prelude.{◌≡◌, Bool, ℕ, ◌+◌, ◌-◌, ◌≤◌, ◌<◌, ltb, get_or, length, set, MatchOption};
ghost use Rattle.record.specs.Program.{block_size};
ghost use Rattle.rules.specs.Syntax.{Block};
ghost use Rattle.place.specs.ProgramView.{BlockAt};
ghost use Rattle.counting.specs.Depth.{nesting};
ghost use Rattle.nesting_check.specs.Rows.{Scanned, Turned};

use record::kind::Kind;

// So many rows can be open.
const DEEPEST: usize = 32;

// The ends of the rows that are open, the innermost last.
// Kept: an array with a count beside it, a stack in fixed memory: by the rule of the project there is no heap.
#[derive(Drop)]
struct Rows {
    ends: [u16; DEEPEST],
    depth: usize,
    ghost within: { depth ≤ 32 },
}

impl Rows {
    // Where the innermost one ends.
    fn end(&self) -> usize
        requires { 0 < self.now.depth }
        ensures { result ≡ get_or self.now.ends (self.now.depth - 1) 0 }
    {
        usize::from(self.ends[self.depth - 1])
    }

    // Another within it, where there is room.
    fn push(&mut self, end: u16) -> Option<()>
        ensures { MatchOption result (self.old.depth ≡ 32) (λ _. (self.old.depth < 32) × (self.new.ends ≡ set self.old.ends self.old.depth end) × (self.new.depth ≡ self.old.depth + 1)) }
    {
        if self.depth == DEEPEST {
            return None;
        }
        self.ends[self.depth] = end;
        self.depth += 1;
        Some(())
    }
}

// One row's end, one assignment, or one head of a loop or block: where the next one stands, or None where the program is too deep.
fn turn(buf: &[u8], rows: &mut Rows, q: usize) -> Option<usize>
    requires { ((used : ℕ) × (deep : Bool) × (Scanned buf.now used deep rows.old.ends rows.old.depth q × (q < used) × (used ≤ length buf.now))) × (length buf.now ≤ 16384) }
    ensures { (used : ℕ) → (deep : Bool) → Scanned buf.now used deep rows.old.ends rows.old.depth q → q < used → Turned buf.now used deep rows.old.depth rows.new.ends rows.new.depth q result }
{
    if q == rows.end() {
        rows.depth -= 1;
        return Some(q);
    }
    let kind = Kind::read(buf, q + 2);
    if let Kind::Assignment = kind {
        return Some(q + 16);
    }
    rows.push((q + buffer::get_u16(buf, q)) as u16)?;
    match kind {
        Kind::Block => Some(q + 4),
        _ => Some(q + 20),
    }
}

// Whether the program, whose first command stands at `start` and whose record ends at `used`, is nested over 32 deep.
pub fn too_deep(buf: &[u8], used: usize, start: usize) -> bool
    requires { ((P : Block) × (BlockAt buf.now start P × (used ≡ start + block_size P))) × (length buf.now ≤ 16384) × (used ≤ length buf.now) }
    ensures { (P : Block) → BlockAt buf.now start P → used ≡ start + block_size P → result ≡ ltb 32 (nesting P) }
{
    let mut rows = Rows {
        ends: [used as u16; DEEPEST],
        depth: 1,
    };
    let mut q = start;
    // Kept: a walk, since each place comes of the stack of rows that the turn changes: an iterator would hold that, and is no plainer.
    while q < used {
        let Some(next) = turn(buf, &mut rows, q) else {
            return true;
        };
        q = next;
    }
    false
}
