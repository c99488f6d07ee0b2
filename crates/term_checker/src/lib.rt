// The check of a term. A term is judged by all of the slice that it is lent, so that what follows a part is never read as a
// piece of it; the records inside it are read where they stand, by a record reader that goes on from one to the next.
#![tactic(auto, using(crate::proofs::Laws::found))]

ghost use Rattle.std.specs.Prelude.{◌-◌, ◌≤◌, false, ◌≡◌, IfOk, length};
ghost use Rattle.buffer.specs.Slice.{part};
ghost use Rattle.record.specs.Alone.{record_kind, only_simple, only_tuple};
ghost use Rattle.record.specs.Header.{header_in, term_in};
ghost use Rattle.record.specs.Term.{decode_atoms, only_atom};
ghost use Rattle.record.specs.Answers.{check_term};
ghost use Rattle.record.specs.Rows.{bad_buffer};
ghost use Rattle.checker.specs.Answer.{checked_of};
ghost use Rattle.checker.specs.Verdict.{verdict};
ghost use Rattle.term_checker.specs.TermVerdict.{OpensTerm, atom_rating, atoms_rating, simple_rating, term_verdict};
ghost use Rattle.term_checker.specs.RecordAt.{record_at};

use buffer::get_u32;
use checker::{Limits, Verdict, bad_buffer, check_header, check_value, check_variable, worst};
use reader::Head;
use record::kind::Kind;
use record::refusal::Refusal;
use record::{Class, Header, Sort};

// What a term's head leaves to check.
#[derive(Clone, Copy)]
pub enum Opened {
    // Nothing: a tuple, or no term.
    Whole(Verdict),
    // The last term of a let-one or a rec, by where it starts, beside the verdict on what stands before it.
    Last(Verdict, usize),
    // Both terms of a let-all, by where the second starts.
    Two(usize),
}

// The atom at a place. Its kind tells it from every other record, so the class is not asked.
fn check_atom(s: &[u8], at: usize, limits: Limits) -> Verdict
    ensures { result ≡ verdict (atom_rating limits.k limits.largest) (only_atom (record_at s.now at)) }
{
    let Head::Record(length, kind) = reader::head_at(s, at) else {
        return Verdict::Malformed;
    };
    if length != 8 {
        return Verdict::Malformed;
    }
    match Kind::named(kind) {
        Kind::Numeral => check_value(get_u32(s, at + 4), limits.largest),
        Kind::Reference => check_variable(get_u32(s, at + 4), limits.k),
        _ => Verdict::Malformed,
    }
}

// The contents of a tuple: the atoms from a place up to an end. The length is that of k atoms. Behind an atom that is malformed
// the reader may stand anywhere, so the walk ends there; a good one leaves what was found as it is.
fn check_atoms(s: &[u8], at: usize, end: usize, limits: Limits) -> Verdict
    requires { (at ≤ end) × (end ≤ length s.now) }
    ensures { result ≡ verdict (atoms_rating limits.k limits.largest) (decode_atoms limits.k (part s.now at (end - at))) }
{
    if end - at != 8 * (limits.k as usize) {
        return Verdict::Malformed;
    }
    let mut found = Verdict::Good;
    let mut place = at;
    // Kept: a `while`, since the places are no range: each is where the reader goes on (`reader::after`, the record reader of 01).
    while place < end {
        match check_atom(s, place, limits) {
            Verdict::Good => {}
            Verdict::Malformed => return Verdict::Malformed,
            atom => found = worst(found, atom),
        }
        place = reader::after(s, place);
    }
    found
}

// The tuple at a place.
fn check_tuple(s: &[u8], at: usize, limits: Limits) -> Verdict
    ensures { result ≡ verdict (atoms_rating limits.k limits.largest) (only_tuple limits.k (record_at s.now at)) }
{
    let Head::Record(_, kind) = reader::head_at(s, at) else {
        return Verdict::Malformed;
    };
    match Kind::named(kind) {
        Kind::Tuple => check_atoms(s, at + 4, reader::after(s, at), limits),
        _ => Verdict::Malformed,
    }
}

// What a let-one binds, at a place. The atom inside a succ or pred ends where that ends.
fn check_simple(s: &[u8], at: usize, limits: Limits) -> Verdict
    ensures { result ≡ verdict (simple_rating limits.k limits.largest) (only_simple (record_at s.now at)) }
{
    let Head::Record(_, kind) = reader::head_at(s, at) else {
        return Verdict::Malformed;
    };
    match Kind::named(kind) {
        Kind::Succ | Kind::Pred => {
            if reader::after(s, at + 4) != reader::after(s, at) {
                return Verdict::Malformed;
            }
            check_atom(s, at + 4, limits)
        }
        _ => check_atom(s, at, limits),
    }
}

// Where nothing stands behind the variable the reader does not go on.
fn open_let_one(s: &[u8], limits: Limits) -> Opened
    requires { record_kind s.now ≡ 37 }
    ensures { OpensTerm limits.k limits.largest s.now result }
{
    let last = reader::after(s, 8);
    if last == 8 {
        return Opened::Whole(Verdict::Malformed);
    }
    let bound = worst(
        check_variable(get_u32(s, 4), limits.k),
        check_simple(s, 8, limits),
    );
    Opened::Last(bound, last)
}

// Where no record stands first, the first term is no bytes at all, and so malformed.
fn open_let_all(s: &[u8], limits: Limits) -> Opened
    requires { record_kind s.now ≡ 38 }
    ensures { OpensTerm limits.k limits.largest s.now result }
{
    Opened::Two(reader::after(s, 4))
}

// Behind the variable stands an atom, of 8 bytes, and behind that a tuple.
fn open_rec(s: &[u8], limits: Limits) -> Opened
    requires { record_kind s.now ≡ 39 }
    ensures { OpensTerm limits.k limits.largest s.now result }
{
    let start = reader::after(s, 8);
    if start != 16 {
        return Opened::Whole(Verdict::Malformed);
    }
    let last = reader::after(s, start);
    if last == start {
        return Opened::Whole(Verdict::Malformed);
    }
    let count = worst(
        check_variable(get_u32(s, 4), limits.k),
        check_atom(s, 8, limits),
    );
    Opened::Last(worst(count, check_tuple(s, start, limits)), last)
}

// The class decides, then the kind: any record of a term may stand here.
fn open_kind(s: &[u8], kind: usize, limits: Limits) -> Opened
    requires { record_kind s.now ≡ kind }
    ensures { OpensTerm limits.k limits.largest s.now result }
{
    match record::class_of(kind) {
        Class::Term => match Kind::named(kind) {
            Kind::Tuple => Opened::Whole(check_tuple(s, 0, limits)),
            Kind::LetOne => open_let_one(s, limits),
            Kind::LetAll => open_let_all(s, limits),
            Kind::Rec => open_rec(s, limits),
            _ => Opened::Whole(Verdict::Malformed),
        },
        _ => Opened::Whole(Verdict::Malformed),
    }
}

// A term is one record, and nothing after it.
fn open_term(s: &[u8], limits: Limits) -> Opened
    ensures { OpensTerm limits.k limits.largest s.now result }
{
    let Head::Record(length, kind) = reader::head_at(s, 0) else {
        return Opened::Whole(Verdict::Malformed);
    };
    if length != s.len() {
        return Opened::Whole(Verdict::Malformed);
    }
    open_kind(s, kind, limits)
}

// Of a let-all's two terms the shorter is checked by a call and the longer by the next turn, so the calls nest no deeper
// than the logarithm of the length.
fn check_term_contents(s: &[u8], limits: Limits) -> Verdict
    ensures { result ≡ term_verdict limits.k limits.largest (term_in limits.k s.now) }
{
    let mut found = Verdict::Good;
    let mut left = s;
    loop {
        match open_term(left, limits) {
            Opened::Whole(verdict) => return worst(found, verdict),
            Opened::Last(verdict, last) => {
                found = worst(found, verdict);
                left = &left[last..];
            }
            Opened::Two(second) => {
                let first = &left[4..second];
                let last = &left[second..];
                if first.len() <= last.len() {
                    found = worst(found, check_term_contents(first, limits));
                    left = last;
                } else {
                    found = worst(found, check_term_contents(last, limits));
                    left = first;
                }
            }
        }
    }
}

// Rows 2 to 5 and 15, of a buffer that row 1 lets through: the header where none applies.
pub fn check_record(buf: &[u8], used: usize) -> Result<Header, Refusal>
    requires { bad_buffer buf.now used ≡ false }
    ensures checks { checked_of result ≡ check_term buf.now used }
    ensures header { IfOk result (λ h. h ≡ header_in buf.now) }
{
    let h = check_header(buf, used, Sort::Term)?;
    let start = h.contents_at();
    check_term_contents(&buf[start..used], Limits::from(h)).row()?;
    Ok(h)
}

pub fn check_term(buf: &[u8], used: usize) -> Result<Header, Refusal>
    ensures checks { checked_of result ≡ check_term buf.now used }
    ensures header { IfOk result (λ h. h ≡ header_in buf.now) }
{
    if bad_buffer(buf, used) {
        return Err(Refusal::BadBuffer);
    }
    check_record(buf, used)
}
