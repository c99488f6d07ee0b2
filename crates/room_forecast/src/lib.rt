// The longest configuration and the longest term of a program from its start store, worked out without a run (02 C-19), over the
// bytes of a checked program in which no command assigns a variable used as a loop bound. One walk finds both, with the weights of
// the one or of the other.
#![tactic(auto)]

ghost use Rattle.std.specs.Prelude.{◌≡◌, ℕ, ◌+◌, ◌-◌, ◌*◌, ◌≤◌, ◌<◌, List, length};
ghost use Rattle.rules.specs.Syntax.{Block};
ghost use Rattle.translator.specs.RowTranslation.{RowAt};
ghost use Rattle.forecast.specs.Figures.{longest_of, program_weights, term_weights, turn_weight, weigh};
ghost use Rattle.forecast.specs.Rows.{Opened, RowIn, RowOf};
ghost use Rattle.room_forecast.specs.Walked.{Few, PartsOf, RowsTo, longest_found, own_weight, unrolled_of, weighed_of, weights_of};

use step_forecast::{Head, look};

// A row of commands from `from` up to `to`, what stands around it while it runs, and what it weighs.
#[derive(Clone, Copy)]
struct Part {
    from: usize,
    to: usize,
    around: u64,
    weight: u64,
}

// What is inside a command weighs, and what is behind it.
#[derive(Clone, Copy)]
struct Weighed {
    inside: u64,
    behind: u64,
}

// The two parts of the first command of a row, that inside it and that behind it, and the longest found so far, that command counted.
#[derive(Clone, Copy)]
struct Parts {
    found: u64,
    inside: Part,
    rest: Part,
}

// What is measured: the records of configurations, or those of terms of so many variables.
#[derive(Clone, Copy)]
enum Measure {
    Program,
    Term(u32),
}

impl Measure {
    // A row of a configuration weighs its bytes, and one of a term what its translation has without its own head.
    fn row_weight(self, src: &[u8], from: usize, to: usize) -> u64
        requires { (RowAt src.now from to) × Few self }
        ensures { (h : RowAt src.now from to) → result ≡ weigh (weights_of self) h.block }
    {
        match self {
            Measure::Program => (to - from) as u64,
            Measure::Term(k) => (translator::row_size(src, from, to, k) - 4) as u64,
        }
    }

    // What the first command of a row weighs by itself: in a configuration the bytes of its head. Its kind shows in how many they are.
    #[tactic(auto, unfolding(forecast::specs::Figures::program_weights, forecast::specs::Figures::term_weights))]
    fn own_weight(self, at: usize, head: Head) -> u64
        requires { at ≤ head.inner }
        ensures { (l s : List ℕ) (end : ℕ) (b : Block) (turns next : ℕ) → Opened l s at end b head.steps turns head.inner next → result ≡ own_weight (weights_of self) b }
    {
        let bytes = head.inner - at;
        match self {
            Measure::Program => bytes as u64,
            Measure::Term(k) => match bytes {
                // A block.
                4 => 8,
                // A loop.
                20 => 28 + 8 * u64::from(k),
                // An assignment, of plus one or minus one where it has a step more.
                _ => { if head.steps == 1 { 16 } else { 20 } }
            },
        }
    }

    // What a turn adds that is unrolled and not yet run: a block, the assignment of the loop's variable, and what is inside.
    #[tactic(auto, unfolding(forecast::specs::Figures::turn_weight, forecast::specs::Figures::program_weights, forecast::specs::Figures::term_weights))]
    fn turn_weight(self, inside: u64) -> u64
        requires { turn_weight (weights_of self) inside < 18446744073709551616 }
        ensures { result ≡ turn_weight (weights_of self) inside }
    {
        match self {
            Measure::Program => 4 + 16 + inside,
            Measure::Term(_) => 8 + 16 + inside,
        }
    }

    // The two parts make up what the command leaves of the row's weight, so it is enough to weigh the shorter.
    fn weigh_parts(self, src: &[u8], row: Part, head: Head, both: u64) -> Weighed
        requires { ((s : List ℕ) × ((b : Block) × ((steps : ℕ) × ((turns : ℕ) × (Opened src.now s row.from row.to b steps turns head.inner head.next × (both ≡ (weighed_of self b).inside + (weighed_of self b).behind)))))) × Few self }
        ensures { (s : List ℕ) (b : Block) (steps turns : ℕ) → Opened src.now s row.from row.to b steps turns head.inner head.next → both ≡ (weighed_of self b).inside + (weighed_of self b).behind → result ≡ weighed_of self b }
    {
        if head.inner - row.from == 16 {
            return Weighed {
                inside: 0,
                behind: both,
            };
        }
        if head.next - head.inner <= row.to - head.next {
            let inside = self.row_weight(src, head.inner, head.next);
            return Weighed {
                inside,
                behind: both - inside,
            };
        }
        let behind = self.row_weight(src, head.next, row.to);
        Weighed {
            inside: both - behind,
            behind,
        }
    }
}

// The turns that the first command of a row unrolls: a block has a turn inside and unrolls none.
fn unrolled(at: usize, head: Head) -> u64
    requires { at ≤ head.inner }
    ensures { (l s : List ℕ) (end : ℕ) (b : Block) (steps next : ℕ) → Opened l s at end b steps head.turns head.inner next → result ≡ unrolled_of s b }
{
    if head.inner - at == 20 { head.turns } else { 0 }
}

impl Part {
    // Where the row is longest at its first command: with all turns unrolled, n of them.
    fn peak(self, n: u64, turn: u64) -> u64
        requires { self.around + (self.weight + n * turn) < 18446744073709551616 }
        ensures { result ≡ self.around + (self.weight + n * turn) }
    {
        self.around + self.weight + n * turn
    }
}

impl Weighed {
    // What stands around the inside of the first command while that first runs: all turns but what is inside this one, and the
    // assignment before it, which is done. A block is as one turn.
    fn waiting(self, around: u64, turns: u64, turn: u64) -> u64
        requires { (16 + self.inside ≤ turns * turn) × (around + (turns * turn + self.behind) < 18446744073709551616) }
        ensures { result ≡ around + (turns * turn - (16 + self.inside) + self.behind) }
    {
        around + turns * turn - (16 + self.inside) + self.behind
    }
}

// What is inside a command that is not run is passed over, and so is an assignment: no row is left inside.
fn split(src: &[u8], store: &[u32], left: Part, found: u64, measure: Measure) -> Parts
    requires { ((b : Block) × (RowsTo measure src.now store.now left b × (left.around + longest_of (weights_of measure) store.now b + 24 < 18446744073709551616))) × (left.from < left.to) × Few measure }
    ensures { (b : Block) → RowsTo measure src.now store.now left b → PartsOf measure src.now store.now left b found result }
{
    let head = look(src, store, left.from, left.to);
    let both = left.weight - measure.own_weight(left.from, head);
    let weighed = measure.weigh_parts(src, left, head, both);
    let rest = Part {
        from: head.next,
        weight: weighed.behind,
        ..left
    };
    if head.turns == 0 {
        return Parts {
            found: found.max(left.around + left.weight),
            inside: Part {
                to: head.next,
                weight: weighed.inside,
                ..rest
            },
            rest,
        };
    }
    let turn = measure.turn_weight(weighed.inside);
    let n = unrolled(left.from, head);
    Parts {
        found: found.max(left.peak(n, turn)),
        inside: Part {
            from: head.inner,
            to: head.next,
            around: weighed.waiting(left.around, head.turns, turn),
            weight: weighed.inside,
        },
        rest,
    }
}

// The longest found so far, or the most that the row comes to with what stands around it. Each command is weighed as it stands, and a
// loop with its turns unrolled. Of the two parts the shorter is walked by a call and the longer by the loop, so the calls nest no deeper
// than the logarithm of the length. For the stack's sake the call stands at one place, and a part of fewer than 20 bytes takes none: no
// loop is as short, so it grows no more, and what it weighs was weighed before. No sum is above the result.
fn walk(src: &[u8], store: &[u32], whole: Part, found: u64, measure: Measure) -> u64
    requires { ((b : Block) × (RowsTo measure src.now store.now whole b × (longest_found measure store.now found whole.around b + 24 < 18446744073709551616))) × Few measure }
    ensures { (b : Block) → RowsTo measure src.now store.now whole b → result ≡ longest_found measure store.now found whole.around b }
{
    let mut left = whole;
    let mut most = found;
    // Kept: what is left is one of two rows that the first command shows, and the other goes to a call: no iterator goes on so.
    while left.from < left.to {
        let parts = split(src, store, left, most, measure);
        let inside = parts.inside;
        let rest = parts.rest;
        most = parts.found;
        left = rest;
        if inside.from < inside.to {
            let mut shorter = inside;
            if rest.to - rest.from < inside.to - inside.from {
                shorter = rest;
                left = inside;
            }
            if 20 <= shorter.to - shorter.from {
                most = walk(src, store, shorter, most, measure);
            }
        }
    }
    most.max(left.around + left.weight)
}

// The most that a row comes to from its start store, with nothing around it. In a program of at most 16,384 bytes it is far below what 64
// bits hold, so no sum is tested.
fn longest(src: &[u8], store: &[u32], from: usize, to: usize, measure: Measure) -> u64
    requires { (RowIn src.now (length store.now) from to) × (length src.now ≤ 16384) × Few measure }
    ensures { ((b : Block) → RowOf src.now (length store.now) from to b → result ≡ longest_of (weights_of measure) store.now b) × (result + 16 < 18446744073709551616) }
{
    let whole = Part {
        from,
        to,
        around: 0,
        weight: measure.row_weight(src, from, to),
    };
    walk(src, store, whole, 0, measure)
}

// The longest configuration of a row on its way to its end, without the header and the outermost block's own head.
pub fn longest_program(src: &[u8], store: &[u32], from: usize, to: usize) -> u64
    requires { (RowIn src.now (length store.now) from to) × (length src.now ≤ 16384) }
    ensures { ((b : Block) → RowOf src.now (length store.now) from to b → result ≡ longest_of program_weights store.now b) × (result + 16 < 18446744073709551616) }
{
    longest(src, store, from, to, Measure::Program)
}

// The longest term of k variables on the way of the row's translation, without the header and the outermost term's own head.
pub fn longest_term(src: &[u8], store: &[u32], from: usize, to: usize, k: u32) -> u64
    requires { (RowIn src.now (length store.now) from to) × (length src.now ≤ 16384) × (1 ≤ k) × (k ≤ 16) }
    ensures { ((b : Block) → RowOf src.now (length store.now) from to b → result ≡ longest_of (term_weights k) store.now b) × (result + 16 < 18446744073709551616) }
{
    longest(src, store, from, to, Measure::Term(k))
}
