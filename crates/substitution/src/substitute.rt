// Substitution in place: along the path of free variables, so that no length changes and nothing moves. Each function gives back how
// many variables it replaced.
ghost use Rattle.std.specs.Prelude.{◌≡◌, List, map, ◌≤◌, length};
ghost use Rattle.buffer.specs.Slice.{put};
ghost use Rattle.record.specs.Answers.{padded};
ghost use Rattle.record.specs.Header.{encode_term};
ghost use Rattle.record.specs.Holding.{TermIn};
ghost use Rattle.record.specs.Term.{encode_atom, encode_atoms, encode_term_record};
ghost use Rattle.rules.specs.FreeVariables.{all_vars};
ghost use Rattle.rules.specs.Replaced.{replaced, replaced_atom, replaced_atoms};
ghost use Rattle.rules.specs.Substitution.{from_store, substitute, substitute_atom};
ghost use Rattle.rules.specs.Syntax.{Atom, Term};
ghost use Rattle.substitution.specs.Ranged.{RangedAtom, RangedAtoms, RangedTerm};
ghost use Rattle.substitution.specs.ValuesLeft.{values_left};
ghost use Rattle.numerals.specs.Values.{substitution_of};

use crate::path::{Path, step};
use buffer::{get_u32, put_u16, put_u32, zero};
use numerals::values::{SLOTS, Values, put_store};
use record::Header;
use record::kind::Kind;

fn substitute_atom(buf: &mut [u8], at: usize, values: &Values) -> usize
    requires { (a : Atom) × RangedAtom buf.old at a }
    ensures { (a : Atom) → RangedAtom buf.old at a → (buf.new ≡ put buf.old at (encode_atom (substitute_atom (substitution_of values.now) a))) × (result ≡ replaced_atom (substitution_of values.now) a) }
{
    if let Kind::Reference = Kind::read(buf, at + 2) {
        if let Some(v) = values[get_u32(buf, at + 4) as usize] {
            put_u16(buf, at + 2, Kind::Numeral.number());
            put_u32(buf, at + 4, v);
            return 1;
        }
    }
    0
}

fn substitute_atoms(buf: &mut [u8], at: usize, count: usize, values: &Values) -> usize
    requires { (ys : List Atom) × RangedAtoms buf.old at count ys }
    ensures { (ys : List Atom) → RangedAtoms buf.old at count ys → (buf.new ≡ put buf.old at (encode_atoms (map (substitute_atom (substitution_of values.now)) ys))) × (result ≡ replaced_atoms (substitution_of values.now) ys) }
{
    let mut replaced = 0;
    for i in 0..count {
        replaced += substitute_atom(buf, at + 8 * i, values);
    }
    replaced
}

// A let-one binds its variable in its last term, so there that variable stays: the array goes along with the path, and is lent since one
// handed over is copied, which takes a call of the C library's. So it would be where this is inlined; the hint promises nothing.
#[inline(never)]
pub fn substitute_along(buf: &mut [u8], at: usize, k: u32, values: &mut Values) -> usize
    requires { (t : Term) × RangedTerm buf.old at k t }
    ensures substitutes { (t : Term) → RangedTerm buf.old at k t → (buf.new ≡ put buf.old at (encode_term_record (substitute (substitution_of values.old) t))) × (result ≡ replaced (substitution_of values.old) t) }
    ensures leaves { (t : Term) → RangedTerm buf.old at k t → values.new ≡ values_left values.old t }
{
    let mut replaced = 0;
    let mut path = Path::At(at);
    loop {
        match path.onward(buf, k) {
            // The tuple in which it ends: its atoms one after the other, with no look at the path between them.
            Path::Row(row, n) => return replaced + substitute_atoms(buf, row, n, values),
            Path::At(p) => {
                let (stop, next) = step(buf, p);
                replaced += substitute_atom(buf, stop.at, values);
                if let Some(x) = stop.binds {
                    values[x] = None;
                }
                path = Path::At(next);
            }
        }
    }
}

// The same with an array of its own: the caller's stays as it is.
pub fn substitute_at(buf: &mut [u8], at: usize, k: u32, mut values: Values) -> usize
    requires { (t : Term) × RangedTerm buf.old at k t }
    ensures { (t : Term) → RangedTerm buf.old at k t → (buf.new ≡ put buf.old at (encode_term_record (substitute (substitution_of values) t))) × (result ≡ replaced (substitution_of values) t) }
{
    substitute_along(buf, at, k, &mut values)
}

// A record as the call has it: the bytes behind it become zero.
pub fn substitute_record(buf: &mut [u8], used: usize, h: Header, store: &[u32]) -> usize
    requires { ((t : Term) × TermIn all_vars h t buf.old used) × (length buf.old ≤ 16384) × (length store.now ≡ h.k) }
    ensures { (t : Term) → TermIn all_vars h t buf.old used → (buf.new ≡ padded (length buf.old) (encode_term h (substitute (from_store store.now) t))) × (result ≡ replaced (from_store store.now) t) }
{
    let mut values = [None; SLOTS];
    put_store(&mut values, store);
    let replaced = substitute_along(buf, h.contents_at(), h.k, &mut values);
    let behind = buf.len() - used;
    zero(buf, used, behind);
    replaced
}
