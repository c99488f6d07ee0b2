// The parts of the line, each written into a lent slice at an index. What is given is the index behind what was written.
#![tactic(auto)]

ghost use Rattle.std.specs.Prelude.{◌≡◌, ◌++◌, ◌+◌, ◌*◌, ◌≤◌, length, take};
ghost use Rattle.buffer.specs.Slice.{put};
ghost use Rattle.print.specs.Decimal.{decimal};
ghost use Rattle.print.specs.Words.{outcome_word, ran_line, refused_line, spaced, spaced_all};
ghost use Rattle.run.specs.Represents.{as_outcome, as_run_answer};

use moves::copy;
use run::{Outcome, RunEnd};

// The number of digits.
#[tactic(auto, using(crate::proofs::DecimalLaws::digits_exact, crate::proofs::DecimalLaws::digits_none))]
fn digits(n: u32) -> usize
    ensures { (result ≡ length (decimal n)) × (result ≤ 10) }
{
    match n.checked_ilog10() {
        Some(power) => power as usize + 1,
        None => 1,
    }
}

// Kept: slice and index as two parameters, for the public contracts of put_decimal, put_spaced, put_values and put_outcome have them.
// From the last digit to the first: the one left over by each division is the next, and what is left at last is the first.
pub fn put_decimal(out: &mut [u8], at: usize, n: u32) -> usize
    requires { at + 10 ≤ length out.old }
    ensures { (out.new ≡ put out.old at (decimal n)) × (result ≡ at + length (decimal n)) × (result ≤ at + 10) }
{
    let end = at + digits(n);
    let mut left = n;
    for place in (at + 1..end).rev() {
        out[place] = b'0' + (left % 10) as u8;
        left /= 10;
    }
    out[at] = b'0' + left as u8;
    end
}

pub fn put_spaced(out: &mut [u8], at: usize, n: u32) -> usize
    requires { at + 11 ≤ length out.old }
    ensures { (out.new ≡ put out.old at (spaced n)) × (result ≡ at + length (spaced n)) × (result ≤ at + 11) }
{
    out[at] = b' ';
    put_decimal(out, at + 1, n)
}

pub fn put_values(out: &mut [u8], at: usize, store: &[u32]) -> usize
    requires { at + 11 * length store.now ≤ length out.old }
    ensures { (out.new ≡ put out.old at (spaced_all store.now)) × (result ≡ at + length (spaced_all store.now)) × (result ≤ at + 11 * length store.now) }
{
    let mut place = at;
    for value in store {
        place = put_spaced(out, place, *value);
    }
    place
}

fn put_word(out: &mut [u8], at: usize, word: &[u8]) -> usize
    requires { at + length word.now ≤ length out.old }
    ensures { (out.new ≡ put out.old at word.now) × (result ≡ at + length word.now) }
{
    copy(word, 0, out, at, word.len());
    at + word.len()
}

pub fn put_outcome(out: &mut [u8], at: usize, o: Outcome) -> usize
    requires { at + 8 ≤ length out.old }
    ensures { (out.new ≡ put out.old at (outcome_word (as_outcome o))) × (result ≡ at + length (outcome_word (as_outcome o))) × (result ≤ at + 8) }
{
    match o {
        Outcome::Finished => put_word(out, at, b"finished"),
        Outcome::Over => put_word(out, at, b"over"),
        Outcome::NoRoom => put_word(out, at, b"noroom"),
        Outcome::Spent => put_word(out, at, b"spent"),
        Outcome::Refused => put_word(out, at, b"refused"),
    }
}

// An outcome and the number behind it.
fn put_run(out: &mut [u8], at: usize, o: Outcome, n: u32) -> usize
    requires { at + 19 ≤ length out.old }
    ensures { (out.new ≡ put out.old at (outcome_word (as_outcome o) ++ spaced n)) × (result ≡ at + length (outcome_word (as_outcome o) ++ spaced n)) × (result ≤ at + 19) }
{
    let word = put_outcome(out, at, o);
    put_spaced(out, word, n)
}

// The line of a refused input. The first r bytes are the line.
pub fn put_refused(out: &mut [u8], number: u32) -> usize
    requires { 20 ≤ length out.old }
    ensures { (take result out.new ≡ refused_line number) × (result ≤ 20) }
{
    let end = put_run(out, 0, Outcome::Refused, number);
    out[end] = b'\n';
    end + 1
}

// The line of the two runs.
pub fn put_ran(out: &mut [u8], stepper: RunEnd, reducer: RunEnd, store: &[u32]) -> usize
    requires { 40 + 11 * length store.now ≤ length out.old }
    ensures { (take result out.new ≡ ran_line (as_run_answer stepper) (as_run_answer reducer) store.now) × (result ≤ 40 + 11 * length store.now) }
{
    let first = put_run(out, 0, stepper.outcome, stepper.steps);
    out[first] = b' ';
    let second = put_run(out, first + 1, reducer.outcome, reducer.steps);
    let end = put_values(out, second, store);
    out[end] = b'\n';
    end + 1
}
