// The steps of a program from its start store, worked out without a run (02 C-19), over the bytes of a checked program in which no
// command assigns a variable used as a loop bound. And the first command of a row, as every figure's walk sees it.
#![tactic(auto)]

ghost use Rattle.std.specs.Prelude.{◌≡◌, ◌⊎◌, ℕ, ◌+◌, ◌-◌, ◌*◌, ◌^◌, ◌≤◌, ◌<◌, SomeIff, length};
ghost use Rattle.rules.specs.Evaluate.{assign_steps};
ghost use Rattle.rules.specs.Scope.{BoundWithin};
ghost use Rattle.rules.specs.Step.{bound_value};
ghost use Rattle.rules.specs.Syntax.{Block, Bound, Expr, assign, loop};
ghost use Rattle.place.specs.ProgramView.{BlockAt};
ghost use Rattle.forecast.specs.Figures.{steps_of};
ghost use Rattle.forecast.specs.Rows.{Opened, RowIn, RowOf};

use command::Leaf;
use record::kind::Kind;

// The first command of a row: its own steps, how often what is inside it is run, where that starts, and where it ends, which is where
// the rest of the row starts.
#[derive(Clone, Copy)]
pub struct Head {
    pub steps: u64,
    pub turns: u64,
    pub inner: usize,
    pub next: usize,
}

impl Head {
    // Where what is inside and is run starts: at its end where it has no turn.
    fn run_from(self) -> usize
        ensures { (self.turns ≡ 0 → result ≡ self.next) × ((self.turns ≡ 0 → ⊥) → result ≡ self.inner) }
    {
        if self.turns == 0 {
            self.next
        } else {
            self.inner
        }
    }
}

// A row of commands from `from` up to `to`, and how often its steps are counted.
#[derive(Clone, Copy)]
struct Part {
    from: usize,
    to: usize,
    times: u64,
}

// The turns of the loop at index at: the value of its bound.
fn turns_of(src: &[u8], store: &[u32], at: usize) -> u64
    requires { (x : ℕ) × ((m : Bound) × ((c : Block) × ((r : Block) × (BlockAt src.now at (loop x m c r) × BoundWithin (length store.now) m)))) }
    ensures { ((x : ℕ) (m : Bound) (c r : Block) → BlockAt src.now at (loop x m c r) → result ≡ bound_value store.now m) × (result < 4294967296) }
{
    let bound = Leaf::read(src, at + 8);
    u64::from(bound.value(store))
}

// The steps of the assignment at index at: one more where its expression is worked out first.
fn assign_steps(src: &[u8], at: usize) -> u64
    requires { (x : ℕ) × ((e : Expr) × ((r : Block) × BlockAt src.now at (assign x e r))) }
    ensures { (x : ℕ) (e : Expr) (r : Block) → BlockAt src.now at (assign x e r) → result ≡ assign_steps e }
{
    match Kind::read(src, at + 10) {
        Kind::PlusOne | Kind::MinusOne => 2,
        _ => 1,
    }
}

// The first command of the row from `at` up to `end`.
pub fn look(src: &[u8], store: &[u32], at: usize, end: usize) -> Head
    requires { (RowIn src.now (length store.now) at end) × (at < end) }
    ensures { ((b : Block) → RowOf src.now (length store.now) at end b → Opened src.now store.now at end b result.steps result.turns result.inner result.next) × (result.turns < 4294967296) }
{
    let next = at + buffer::get_u16(src, at);
    match Kind::read(src, at + 2) {
        Kind::Loop => {
            let turns = turns_of(src, store, at);
            Head {
                steps: 3 * turns + 2,
                turns,
                inner: at + 20,
                next,
            }
        }
        Kind::Block => Head {
            steps: 1,
            turns: 1,
            inner: at + 4,
            next,
        },
        _ => Head {
            steps: assign_steps(src, at),
            turns: 0,
            inner: next,
            next,
        },
    }
}

// a + m * c, where 64 bits hold it.
fn add_times(a: u64, m: u64, c: u64) -> Option<u64>
    ensures { SomeIff result (a + m * c < 2 ^ 64) (a + m * c) }
{
    a.checked_add(m.checked_mul(c)?)
}

// The two rows, the shorter before the longer.
fn shorter_first(a: Part, b: Part) -> (Part, Part)
    requires { (a.from ≤ a.to) × (b.from ≤ b.to) }
    ensures { ((result ≡ (a, b)) ⊎ (result ≡ (b, a))) × (result.0.to - result.0.from ≤ result.1.to - result.1.from) }
{
    if b.to - b.from < a.to - a.from {
        (b, a)
    } else {
        (a, b)
    }
}

// a + the steps of a row, each counted as often as the row's `times` says. Of what is inside a command and what is behind it the shorter
// is walked by a call and the longer by the loop, so the calls nest no deeper than the logarithm of the length. For the stack's sake the
// call stands at one place, and a row with no command takes none. A loop of no turn is passed over, with all that is inside it.
fn walk(src: &[u8], store: &[u32], whole: Part, a: u64) -> Option<u64>
    requires { RowIn src.now (length store.now) whole.from whole.to }
    ensures { (b : Block) → RowOf src.now (length store.now) whole.from whole.to b → SomeIff result (a + whole.times * steps_of store.now b < 2 ^ 64) (a + whole.times * steps_of store.now b) }
{
    let mut left = whole;
    let mut found = a;
    // Kept: what is left is one of two rows that the first command shows, and the other goes to a call: no iterator goes on so.
    while left.from < left.to {
        let head = look(src, store, left.from, left.to);
        found = add_times(found, left.times, head.steps)?;
        let inside = Part {
            from: head.run_from(),
            to: head.next,
            times: left.times * head.turns,
        };
        let behind = Part {
            from: head.next,
            to: left.to,
            times: left.times,
        };
        let (shorter, longer) = shorter_first(inside, behind);
        if shorter.from < shorter.to {
            found = walk(src, store, shorter, found)?;
        }
        left = longer;
    }
    Some(found)
}

// The steps of a row to its end.
pub fn count_steps(src: &[u8], store: &[u32], from: usize, to: usize) -> Option<u64>
    requires { RowIn src.now (length store.now) from to }
    ensures { (b : Block) → RowOf src.now (length store.now) from to b → SomeIff result (steps_of store.now b < 2 ^ 64) (steps_of store.now b) }
{
    let whole = Part { from, to, times: 1 };
    walk(src, store, whole, 0)
}
