// The test that no variable is free in a term: along the same path as substitution, with a mark for each variable that a
// let-one has bound.
ghost use Rattle.std.specs.Prelude.{◌≡◌, List, ◌≤◌, length};
ghost use Rattle.record.specs.Holding.{TermIn};
ghost use Rattle.rules.specs.FreeVariables.{all_vars, closed, closed_atom, closed_atoms};
ghost use Rattle.rules.specs.Syntax.{Atom, Term};
ghost use Rattle.substitution.specs.Marks.{marked};
ghost use Rattle.substitution.specs.Ranged.{RangedAtom, RangedAtoms, RangedTerm};

use crate::path::{Path, step};
use buffer::get_u32;
use numerals::values::SLOTS;
use record::Header;
use record::kind::Kind;

fn closed_atom(buf: &[u8], at: usize, bound: &[bool; SLOTS]) -> bool
    requires { (a : Atom) × RangedAtom buf.now at a }
    ensures { (a : Atom) → RangedAtom buf.now at a → result ≡ closed_atom (marked bound.now) a }
{
    match Kind::read(buf, at + 2) {
        Kind::Reference => bound[get_u32(buf, at + 4) as usize],
        _ => true,
    }
}

fn closed_atoms(buf: &[u8], at: usize, count: usize, bound: &[bool; SLOTS]) -> bool
    requires { (ys : List Atom) × RangedAtoms buf.now at count ys }
    ensures { (ys : List Atom) → RangedAtoms buf.now at count ys → result ≡ closed_atoms (marked bound.now) ys }
{
    for i in 0..count {
        if !closed_atom(buf, at + 8 * i, bound) {
            return false;
        }
    }
    true
}

fn closed_at(buf: &[u8], at: usize, k: u32) -> bool
    requires { (t : Term) × RangedTerm buf.now at k t }
    ensures { (t : Term) → RangedTerm buf.now at k t → result ≡ closed t }
{
    let mut bound = [false; SLOTS];
    let mut path = Path::At(at);
    loop {
        match path.onward(buf, k) {
            // The tuple in which it ends: its atoms one after the other, with no look at the path between them.
            Path::Row(row, n) => return closed_atoms(buf, row, n, &bound),
            Path::At(p) => {
                let (stop, next) = step(buf, p);
                if !closed_atom(buf, stop.at, &bound) {
                    return false;
                }
                if let Some(x) = stop.binds {
                    bound[x] = true;
                }
                path = Path::At(next);
            }
        }
    }
}

pub fn is_closed(buf: &[u8], used: usize, h: Header) -> bool
    requires { ((t : Term) × TermIn all_vars h t buf.now used) × (length buf.now ≤ 16384) }
    ensures { (t : Term) → TermIn all_vars h t buf.now used → result ≡ closed t }
{
    closed_at(buf, h.contents_at(), h.k)
}
