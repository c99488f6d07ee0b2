// What the check of a program and the check of a term share: rows 1 to 3, a variable number's range, a value beside the
// largest one, what is found of a record's contents (rows 4, 5 and 15), and the answer; and row 16's test of values.
#![tactic(auto)]

ghost use Rattle.std.specs.Prelude.{◌≡◌, IfOk, false, not, ltb};
ghost use Rattle.rules.specs.Literals.{small_values};
ghost use Rattle.rules.specs.Scope.{in_range};
ghost use Rattle.rules.specs.Store.{up_to};
ghost use Rattle.record.specs.Header.{header_in, largest_of};
ghost use Rattle.record.specs.HeaderRows.{header_row};
ghost use Rattle.record.specs.Rows.{bad_buffer};
ghost use Rattle.record.specs.Refusal.{answer_number};
ghost use Rattle.checker.specs.Answer.{as_checked, checked_of};
ghost use Rattle.checker.specs.Verdict.{number_of, rated, valued, worse};

use reader::Head;
use record::refusal::Refusal;
use record::{Header, Sort, limit};

// What the contents of a record are found to be. Row 4 comes before row 5 and row 5 before row 15, wherever they are found, so
// malformed is worse than outside, and outside worse than above.
#[derive(Clone, Copy, PartialEq, Eq, PartialOrd, Ord)]
pub enum Verdict {
    Good,
    Above,
    Outside,
    Malformed,
}

// The answer of a check as it crosses the C boundary: the number of the refusal, or 0 and k.
#[repr(C)]
#[derive(Clone, Copy)]
pub struct Checked {
    pub number: u32,
    pub k: u32,
}

impl From<Result<Header, Refusal>> for Checked {
    ghost from_gives = { λ answer checked. as_checked checked ≡ checked_of answer };

    fn from(answer: Result<Header, Refusal>) -> Checked {
        match answer {
            Ok(h) => Checked { number: 0, k: h.k },
            // A refusal gives no k.
            Err(refusal) => Checked {
                number: refusal.number(),
                k: 0,
            },
        }
    }
}

pub fn worst(a: Verdict, b: Verdict) -> Verdict
    ensures { result ≡ worse a b }
{
    a.max(b)
}

impl Verdict {
    // The first of rows 4, 5 and 15 that applies.
    pub fn row(self) -> Result<(), Refusal>
        ensures { answer_number result ≡ number_of self }
    {
        match self {
            Verdict::Good => Ok(()),
            Verdict::Above => Err(Refusal::LiteralAboveCeiling),
            Verdict::Outside => Err(Refusal::BadVariable),
            Verdict::Malformed => Err(Refusal::Malformed),
        }
    }
}

// What a header lets through: variable numbers from 1 to k, and literals and numerals up to the largest value.
#[derive(Clone, Copy)]
pub struct Limits {
    pub k: u32,
    pub largest: u32,
}

impl From<Header> for Limits {
    ghost from_gives = { λ h limits. (limits.k ≡ h.k) × (limits.largest ≡ largest_of h) };

    fn from(h: Header) -> Limits {
        Limits {
            k: h.k,
            largest: h.largest(),
        }
    }
}

pub fn check_variable(x: u32, k: u32) -> Verdict
    ensures { result ≡ rated (in_range k x) }
{
    if 1 <= x && x <= k {
        Verdict::Good
    } else {
        Verdict::Outside
    }
}

// A literal or a numeral.
pub fn check_value(v: u32, largest: u32) -> Verdict
    ensures { result ≡ valued (up_to largest v) }
{
    if largest < v {
        return Verdict::Above;
    }
    Verdict::Good
}

// Row 16: whether one of the values that a call reads is above the largest.
pub fn some_above(values: &[u32], largest: u32) -> bool
    ensures { result ≡ not (small_values (up_to largest) values.now) }
{
    values.iter().any(|&value| largest < value)
}

// The half of row 1 that is asked of every buffer, and alone of one that only takes output: it is longer than a buffer may be.
pub fn too_long(length: usize) -> bool
    ensures { result ≡ ltb 16384 length }
{
    limit::BUFFER < length
}

// Row 1 of a buffer that is lent with a used length.
pub fn bad_buffer(buf: &[u8], used: usize) -> bool
    ensures { result ≡ bad_buffer buf.now used }
{
    if too_long(buf.len()) {
        return true;
    }
    buf.len() < used
}

// Rows 2 and 3 of a record of this sort, in a buffer that row 1 lets through. A record that has no whole header has no k.
pub fn check_header(buf: &[u8], used: usize, sort: Sort) -> Result<Header, Refusal>
    requires { bad_buffer buf.now used ≡ false }
    ensures row { answer_number result ≡ header_row sort buf.now used }
    ensures header { IfOk result (λ h. h ≡ header_in buf.now) }
{
    let Head::Record(length, found) = reader::head_at(buf, 0) else {
        return Err(Refusal::BadHeader);
    };
    if used < record::start_of(buf) {
        return Err(Refusal::BadHeader);
    }
    let h = record::read_header(buf);
    if found != h.kind_of(sort).number() {
        return Err(Refusal::BadHeader);
    }
    if length != used {
        return Err(Refusal::BadHeader);
    }
    if h.k < 1 {
        return Err(Refusal::BadK);
    }
    if limit::VARIABLES < h.k {
        return Err(Refusal::BadK);
    }
    Ok(h)
}
