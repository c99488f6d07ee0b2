// The next reduction of a closed term, looked up before a byte is written (01 "Reducer"): its plan, from the bytes, with nothing
// changed.
#![tactic(auto)]

ghost use Rattle.std.specs.Prelude.{Bool, true, ◌≡◌, ℕ, ◌+◌, ◌*◌, ◌≤◌, length};
ghost use Rattle.buffer.specs.LittleEndian.{val};
ghost use Rattle.buffer.specs.Slice.{part};
ghost use Rattle.record.specs.declared.Header.{Header};
ghost use Rattle.record.specs.Header.{contents_at};
ghost use Rattle.record.specs.Holding.{TermIn};
ghost use Rattle.place.specs.TermPath.{enters_at, term_path};
ghost use Rattle.place.specs.TermView.{TermAt};
ghost use Rattle.rules.specs.FreeVariables.{closed, no_vars};
ghost use Rattle.rules.specs.Store.{up_to};
ghost use Rattle.rules.specs.Syntax.{Term};
ghost use Rattle.redex.specs.Plan.{plan_of, plan_redex};

use plan::{Place, Plan};
use record::kind::Kind;

// Whether a let-all whose first term is no tuple begins at p.
fn enters(buf: &[u8], p: usize) -> bool
    requires { (p + 4 ≤ length buf.now) × (val (part buf.now (p + 2) 2) ≡ 38 → p + 8 ≤ length buf.now) }
    ensures { result ≡ enters_at buf.now p }
{
    match Kind::read(buf, p + 2) {
        Kind::LetAll => !matches!(Kind::read(buf, p + 6), Kind::Tuple),
        _ => false,
    }
}

// How many let-alls are open around the redex. The term stands where the contents start.
fn open_levels(buf: &[u8], contents: usize) -> usize
    requires { (k : ℕ) × ((t : Term) × TermAt buf.now contents k t) }
    ensures { (k : ℕ) (t : Term) → TermAt buf.now contents k t → result ≡ length (term_path t) }
{
    plan::levels(contents, |p| enters(buf, p))
}

// The plan of the closed let-one at a place. What it binds is a numeral, or succ or pred of one.
fn look_let_one(buf: &[u8], place: Place, largest: u32) -> Plan
    requires { ((k : ℕ) × ((t : Term) × TermAt buf.now place.at k t)) × (val (part buf.now (place.at + 2) 2) ≡ 37) }
    ensures { (k : ℕ) (t : Term) → TermAt buf.now place.at k t → closed t ≡ true → result ≡ plan_redex (up_to largest) place.levels place.at t }
{
    let variable = buffer::get_u32(buf, place.at + 4);
    match Kind::read(buf, place.at + 10) {
        Kind::Numeral => place.bind(variable, buffer::get_u32(buf, place.at + 12)),
        Kind::Pred => {
            let value = buffer::get_u32(buf, place.at + 16);
            place.evaluate(variable, run::value::minus_one(value), 4)
        }
        _ => place.raise(variable, buffer::get_u32(buf, place.at + 16), 4, largest),
    }
}

// The plan of the closed rec at a place, whatever values pass: no value grows. The record of its body is what is left of the rec's
// behind 20 bytes and the start tuple's atoms.
fn look_rec(buf: &[u8], place: Place, k: u32) -> Plan
    requires { ((t : Term) × TermAt buf.now place.at k t) × (val (part buf.now (place.at + 2) 2) ≡ 39) }
    ensures { (t : Term) → TermAt buf.now place.at k t → closed t ≡ true → (ok : ℕ → Bool) → result ≡ plan_redex ok place.levels place.at t }
{
    let variable = buffer::get_u32(buf, place.at + 4);
    let value = buffer::get_u32(buf, place.at + 12);
    let body = buffer::get_u16(buf, place.at) - (20 + 8 * k as usize);
    place.turn(variable, value, body)
}

// The plan of the next reduction of a closed term of k variables that stands where the contents start, at `contents`, with values up
// to `largest`.
// Kept: three numbers and no header, since the promise is of every largest value (`plan_of contents (up_to largest)`).
pub fn look(buf: &[u8], k: u32, contents: usize, largest: u32) -> Plan
    requires { (h : Header) × ((t : Term) × ((used : ℕ) × (TermIn no_vars h t buf.now used × ((length buf.now ≤ 16384) × ((h.k ≡ k) × (contents_at h ≡ contents)))))) }
    ensures { (h : Header) (t : Term) (used : ℕ) → TermIn no_vars h t buf.now used → h.k ≡ k → contents_at h ≡ contents → result ≡ plan_of contents (up_to largest) t }
{
    let levels = open_levels(buf, contents);
    let place = Place {
        at: contents + 4 * levels,
        levels,
    };
    match Kind::read(buf, place.at + 2) {
        Kind::LetOne => look_let_one(buf, place, largest),
        Kind::Rec => look_rec(buf, place, k),
        Kind::Tuple => place.finished(),
        _ => place.leave(8 + 8 * k as usize),
    }
}
