// Whether some command assigns a variable used as a loop bound (02 C-19, refusal 18): two passes over a checked program's bytes, with a
// mark for each variable. Commands are met in the order of their bytes, at whatever depth, so neither pass needs a stack.
#![tactic(auto)]

ghost use Rattle.std.specs.Prelude.{◌≡◌, ◌||◌, not, ℕ, ◌+◌, ◌-◌, ◌≤◌, length};
ghost use Rattle.std.specs.Iterator.{at_most};
ghost use Rattle.rules.specs.Scope.{BoundWithin};
ghost use Rattle.rules.specs.Syntax.{Block, Bound, loop};
ghost use Rattle.place.specs.ProgramView.{BlockAt};
ghost use Rattle.forecast.specs.Rows.{RowIn, RowOf};
ghost use Rattle.forecast.specs.Steady.{assigned, bound_outside, bounds_outside, steady};
ghost use Rattle.bound_check.specs.Marks.{NextHead, head_size, marked};

use record::kind::Kind;

// What a pass steps over: an assignment, or the head of a loop or block.
fn head_size(kind: Kind) -> usize
    ensures { result ≡ head_size kind }
{
    match kind {
        Kind::Assignment => 16,
        Kind::Loop => 20,
        _ => 4,
    }
}

// The commands of a row in the order of their bytes, at whatever depth: where each stands, and its kind.
#[derive(Drop)]
struct Heads<'a> {
    src: &'a [u8],
    at: usize,
    to: usize,
}

impl<'a> Iterator for Heads<'a> {
    type Item = (usize, Kind);

    ghost can_next = { λ s. (k : ℕ) × RowIn s.src.now k s.at s.to };

    ghost next_gives = { NextHead };

    ghost remaining = { λ s. at_most (s.to - s.at) };

    fn next(&mut self) -> Option<(usize, Kind)> {
        if self.at == self.to {
            return None;
        }
        let at = self.at;
        let kind = Kind::read(self.src, at + 2);
        self.at += head_size(kind);
        Some((at, kind))
    }
}

// Marks each variable that a command of the row assigns. An assignment has its variable where a loop has its index.
fn mark_assigned(src: &[u8], from: usize, to: usize, marks: &mut [bool; 17])
    requires { (k : ℕ) × ((k ≤ 16) × RowIn src.now k from to) }
    ensures { (k : ℕ) (b : Block) → k ≤ 16 → RowOf src.now k from to b → (y : ℕ) → y ≤ 16 → marked marks.new y ≡ (marked marks.old y || assigned b y) }
{
    for (at, kind) in (Heads { src, at: from, to }) {
        match kind {
            Kind::Block => {}
            _ => marks[buffer::get_u32(src, at + 4) as usize] = true,
        }
    }
}

// Whether the bound of the loop at index at is a marked variable.
fn bound_marked(src: &[u8], at: usize, marks: &[bool; 17]) -> bool
    requires { (x : ℕ) × ((m : Bound) × ((c : Block) × ((r : Block) × (BlockAt src.now at (loop x m c r) × BoundWithin 16 m)))) }
    ensures { (x : ℕ) (m : Bound) (c r : Block) → BlockAt src.now at (loop x m c r) → result ≡ not (bound_outside (marked marks.now) m) }
{
    match Kind::read(src, at + 10) {
        Kind::Literal => false,
        _ => marks[buffer::get_u32(src, at + 12) as usize],
    }
}

// Whether the bound of some loop of the row is a marked variable.
fn some_marked(src: &[u8], from: usize, to: usize, marks: &[bool; 17]) -> bool
    requires { (k : ℕ) × ((k ≤ 16) × RowIn src.now k from to) }
    ensures { (k : ℕ) (b : Block) → RowOf src.now k from to b → result ≡ not (bounds_outside (marked marks.now) b) }
{
    for (at, kind) in (Heads { src, at: from, to }) {
        match kind {
            Kind::Loop => {
                if bound_marked(src, at, marks) {
                    return true;
                }
            }
            _ => {}
        }
    }
    false
}

// Whether some command of the row, whose variables are 1 to 16 at most, assigns a variable that is the bound of one of its loops.
pub fn bound_assigned(src: &[u8], from: usize, to: usize) -> bool
    requires { (k : ℕ) × ((k ≤ 16) × RowIn src.now k from to) }
    ensures { (k : ℕ) (b : Block) → k ≤ 16 → RowOf src.now k from to b → result ≡ not (steady b) }
{
    let mut marks = [false; 17];
    mark_assigned(src, from, to, &mut marks);
    some_marked(src, from, to, &marks)
}
