// A substitution as an array: at index x the value of variable x, or `None` where x stays. Variables run from 1, so index 0 is never read.
ghost use Rattle.std.specs.Prelude.{◌≡◌, List, [], Some, map, ℕ, ◌<◌, ◌≤◌, get_or, length};
ghost use Rattle.place.specs.TermView.{TermAt};
ghost use Rattle.rules.specs.Substitution.{from_store, only as only_of};
ghost use Rattle.rules.specs.Syntax.{num, tuple};
ghost use Rattle.numerals.specs.Values.{substitution_of};

use crate::numeral;
use record::limit::VARIABLES;

// An index for each variable, and index 0.
pub const SLOTS: usize = VARIABLES as usize + 1;

pub type Values = [Option<u32>; SLOTS];

// Every u32 is a value: none of them says that the variable stays.
fn set(v: u32) -> Option<u32>
    ensures { result ≡ Some v }
{
    Some(v)
}

pub fn only(x: usize, v: u32) -> Values
    requires { x < 17 }
    ensures { substitution_of result ≡ only_of x v }
{
    let mut values = [None; SLOTS];
    values[x] = set(v);
    values
}

// Each place gets the value that a function gives for it.
fn fill<F: Fn(usize) -> u32>(slots: &mut [Option<u32>], value: F)
    requires { (i : ℕ) → i < length slots.old → F.pre value i }
    ensures { (vs : List ℕ) → length vs ≡ length slots.old → ((i v : ℕ) → i < length vs → F.post value i v → v ≡ get_or vs i 0) → slots.new ≡ map Some vs }
{
    for (i, slot) in slots.iter_mut().enumerate() {
        *slot = set(value(i));
    }
}

// The values of a store into an array in which every variable stays. It is filled where it lies: an array that is handed back is copied,
// and that takes a call of the C library's.
pub fn put_store(values: &mut Values, store: &[u32])
    requires blank { substitution_of values.old ≡ from_store [] }
    requires few { length store.now ≤ 16 }
    ensures { substitution_of values.new ≡ from_store store.now }
{
    fill(&mut values[1..=store.len()], |i| store[i]);
}

pub fn from_store(store: &[u32]) -> Values
    requires { length store.now ≤ 16 }
    ensures { substitution_of result ≡ from_store store.now }
{
    let mut values = [None; SLOTS];
    put_store(&mut values, store);
    values
}

// The same of the numerals of the tuple at an index.
pub fn put_tuple(values: &mut Values, buf: &[u8], at: usize, k: u32)
    requires blank { substitution_of values.old ≡ from_store [] }
    requires numerals { ((vs : List ℕ) × TermAt buf.now at k (tuple (map num vs))) × (k ≤ 16) }
    ensures { (vs : List ℕ) → TermAt buf.now at k (tuple (map num vs)) → substitution_of values.new ≡ from_store vs }
{
    let row = at + 4;
    fill(&mut values[1..=k as usize], |i| numeral(buf, row, i));
}

pub fn from_tuple(buf: &[u8], at: usize, k: u32) -> Values
    requires { ((vs : List ℕ) × TermAt buf.now at k (tuple (map num vs))) × (k ≤ 16) }
    ensures { (vs : List ℕ) → TermAt buf.now at k (tuple (map num vs)) → substitution_of result ≡ from_store vs }
{
    let mut values = [None; SLOTS];
    put_tuple(&mut values, buf, at, k);
    values
}
