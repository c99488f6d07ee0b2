// The numerals of a finished term, and values as a substitution.
#![tactic(auto)]

ghost use Rattle.std.specs.Prelude.{◌≡◌, List, map, ℕ, ◌<◌, ◌≤◌, get_or, length};
ghost use Rattle.place.specs.TermView.{AtomsAt};
ghost use Rattle.record.specs.Holding.{TermIn};
ghost use Rattle.record.specs.Rows.{finished_term};
ghost use Rattle.rules.specs.FreeVariables.{all_vars, no_vars};
ghost use Rattle.rules.specs.Syntax.{Term, num, tuple};

use buffer::get_u32;
use record::Header;
use record::kind::Kind;

pub mod values;

pub fn is_finished(buf: &[u8], used: usize, h: Header) -> bool
    requires { ((t : Term) × TermIn all_vars h t buf.now used) × (length buf.now ≤ 16384) }
    ensures { (t : Term) → TermIn all_vars h t buf.now used → result ≡ finished_term t }
{
    matches!(Kind::read(buf, h.contents_at() + 2), Kind::Tuple)
}

// The numeral number i of the row of atoms at an index.
fn numeral(buf: &[u8], at: usize, i: usize) -> u32
    requires { (vs : List ℕ) × (AtomsAt buf.now at (map num vs) × (i < length vs)) }
    ensures { (vs : List ℕ) → AtomsAt buf.now at (map num vs) → i < length vs → result ≡ get_or vs i 0 }
{
    get_u32(buf, at + 8 * i + 4)
}

pub fn copy_numerals(buf: &[u8], used: usize, h: Header, store: &mut [u32])
    requires { ((vs : List ℕ) × TermIn no_vars h (tuple (map num vs)) buf.now used) × (length buf.now ≤ 16384) × (length store.old ≡ h.k) }
    ensures { (vs : List ℕ) → TermIn no_vars h (tuple (map num vs)) buf.now used → store.new ≡ vs }
{
    let atoms = h.contents_at() + 4;
    // Kept: indexes and no `iter_mut`, for the must-fail edit first_numeral_not_copied begins them at 1.
    for i in 0..store.len() {
        store[i] = numeral(buf, atoms, i);
    }
}
