// Whether a checked term is the translation of a program (row 9). The terms inside a term stand behind its own bytes, so a
// loop that steps over own bytes meets every term, at whatever depth, in the order of the bytes and with no stack.
#![tactic(auto)]

ghost use Rattle.std.specs.Iterator.{at_most};
ghost use Rattle.std.specs.Prelude.{◌-◌, ◌≡◌, not, List, ◌≤◌, length};
ghost use Rattle.place.specs.TermView.{AtomsAt, TermAt};
ghost use Rattle.record.specs.Holding.{TermIn};
ghost use Rattle.record.specs.Rows.{is_none};
ghost use Rattle.rules.specs.FreeVariables.{all_vars};
ghost use Rattle.rules.specs.ReadBack.{read_back, same_atoms};
ghost use Rattle.rules.specs.Syntax.{Atom, Term};
ghost use Rattle.rules.specs.Translation.{all};
ghost use Rattle.recognition.specs.Recognition.{legal};
ghost use Rattle.recognition.specs.Scan.{own_size};
ghost use Rattle.recognition.specs.Terms.{GivesTerm, StandsAtTerms};

use record::kind::Kind;
use record::{Header, tuple_size};

// From a term to the next one met.
pub fn own_size(src: &[u8], at: usize, k: u32) -> usize
    requires { (t : Term) × TermAt src.now at k t }
    ensures { (t : Term) → TermAt src.now at k t → result ≡ own_size t }
{
    match Kind::read(src, at + 2) {
        Kind::Tuple => tuple_size(k),
        Kind::LetOne => match Kind::read_atom(src, at + 10) {
            Kind::Numeral | Kind::Reference => 16,
            _ => 20,
        },
        Kind::LetAll => 4,
        _ => 16 + tuple_size(k),
    }
}

// The terms that stand from one place up to another, and those inside them, in the order of the bytes: each gives its place.
#[derive(Drop)]
pub struct Terms<'a> {
    src: &'a [u8],
    k: u32,
    at: usize,
    to: usize,
}

impl<'a> Terms<'a> {
    pub fn between(src: &'a [u8], from: usize, to: usize, k: u32) -> Terms<'a>
        ensures { result ≡ record { src = src.exit; k = k; at = from; to = to } }
    {
        Terms {
            src,
            k,
            at: from,
            to,
        }
    }
}

impl<'a> Iterator for Terms<'a> {
    type Item = usize;

    ghost can_next = { StandsAtTerms };

    ghost next_gives = { GivesTerm };

    ghost remaining = { λ s. at_most (s.to - s.at) };

    fn next(&mut self) -> Option<usize> {
        if self.to <= self.at {
            return None;
        }
        let at = self.at;
        self.at += own_size(self.src, at, self.k);
        Some(at)
    }
}

fn is_all(src: &[u8], at: usize, k: u32) -> bool
    requires { ((ys : List Atom) × AtomsAt src.now at ys × (length ys ≡ k)) × (k ≤ 16) }
    ensures { (ys : List Atom) → AtomsAt src.now at ys → length ys ≡ k → result ≡ same_atoms ys (all k) }
{
    let mut p = at;
    for x in 1..k + 1 {
        let Kind::Reference = Kind::read(src, p + 2) else {
            return false;
        };
        if buffer::get_u32(src, p + 4) != x {
            return false;
        }
        p += 8;
    }
    true
}

// Whether a translation may have this term here, the terms inside it aside; `first` says that it is a let-all's first term.
fn is_legal(src: &[u8], at: usize, k: u32, first: bool) -> bool
    requires { ((t : Term) × TermAt src.now at k t) × (k ≤ 16) }
    ensures { (t : Term) → TermAt src.now at k t → result ≡ legal k first t }
{
    match Kind::read(src, at + 2) {
        Kind::Tuple => is_all(src, at + 4, k),
        Kind::LetOne => match Kind::read_atom(src, at + 10) {
            Kind::Numeral | Kind::Reference => true,
            _ => matches!(Kind::read(src, at + 14), Kind::Reference),
        },
        Kind::LetAll => true,
        _ => first && is_all(src, at + 20, k),
    }
}

pub fn is_translation(src: &[u8], used: usize, h: Header) -> bool
    requires { ((t : Term) × TermIn all_vars h t src.now used) × (length src.now ≤ 16384) }
    ensures { (t : Term) → TermIn all_vars h t src.now used → result ≡ not (is_none (read_back h.k t)) }
{
    let mut first = false;
    for at in Terms::between(src, h.contents_at(), used, h.k) {
        if !is_legal(src, at, h.k, first) {
            return false;
        }
        first = matches!(Kind::read(src, at + 2), Kind::LetAll);
    }
    true
}
