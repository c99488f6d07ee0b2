// All variables free in a term stand on one path: from let-one into its last term, from let-all into its first, from rec
// into its start tuple, where it ends as at any tuple. So a loop meets them with no stack, and never turns back. A let-all binds every
// variable in its last term and a rec in its body: the path goes into neither.
ghost use Rattle.std.specs.Prelude.{◌≡◌, ℕ, ◌+◌};
ghost use Rattle.place.specs.TermView.{LetOneView};
ghost use Rattle.record.specs.Term.{simple_size};
ghost use Rattle.rules.specs.Syntax.{Term};
ghost use Rattle.substitution.specs.Path.{Left, Onward, Settled, Stepped};
ghost use Rattle.substitution.specs.Ranged.{RangedTerm};
ghost use Rattle.substitution.specs.declared.path.Path.TheVariants.{At};

use buffer::get_u32;
use record::kind::Kind;

// An atom on the path, and the variable that a let-one binds in all that is left behind it.
#[derive(Clone, Copy)]
pub struct Stop {
    pub at: usize,
    pub binds: Option<usize>,
}

// What is left of the path: the term at an index, or a row of so many atoms.
#[derive(Clone, Copy)]
pub enum Path {
    At(usize),
    Row(usize, usize),
}

// Where the atom stands that the let-one at p binds, or binds succ or pred of: these have a head of their own in front.
fn bound_atom(buf: &[u8], p: usize) -> usize
    requires { (k : ℕ) × ((t : Term) × LetOneView buf.now p k t) }
    ensures { (k : ℕ) (t : Term) (v : LetOneView buf.now p k t) → result ≡ p + simple_size v.bound }
{
    match Kind::read(buf, p + 10) {
        Kind::Succ | Kind::Pred => p + 12,
        _ => p + 8,
    }
}

impl Path {
    // Past let-alls and into the tuple in which it ends: what comes then is an atom, or the row. The tuples are of k atoms.
    pub fn onward(self, buf: &[u8], k: u32) -> Path
        requires { (t : Term) × Left buf.now self k t }
        ensures goes { (t : Term) → Left buf.now self k t → Onward buf.now self result k t }
        ensures settled { Settled buf.now result }
    {
        let mut path = self;
        loop {
            match path {
                Path::Row(_, _) => return path,
                Path::At(p) => match Kind::read(buf, p + 2) {
                    Kind::Tuple => return Path::Row(p + 4, k as usize),
                    Kind::LetAll => path = Path::At(p + 4),
                    _ => return path,
                },
            }
        }
    }
}

// The atom at which the path comes to the let-one or the rec at p, and where it goes on.
pub fn step(buf: &[u8], p: usize) -> (Stop, usize)
    requires { (k : ℕ) × (t : Term) × RangedTerm buf.now p k t × Settled buf.now (At p) }
    ensures { (k : ℕ) (t : Term) → RangedTerm buf.now p k t → Stepped buf.now (At p) k t result.0 (At result.1) }
{
    if let Kind::LetOne = Kind::read(buf, p + 2) {
        let at = bound_atom(buf, p);
        let x = get_u32(buf, p + 4) as usize;
        return (Stop { at, binds: Some(x) }, at + 8);
    }
    // A rec: its count, and its start tuple.
    let stop = Stop {
        at: p + 8,
        binds: None,
    };
    (stop, p + 16)
}
