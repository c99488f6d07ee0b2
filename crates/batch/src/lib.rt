// A batch (02 C-16): one program, and the reducer's run on each of up to 64 start stores. The program is checked and translated once;
// each job then works on bytes that are known to be good, so nothing is checked again.
#![tactic(auto)]

pub mod job;

ghost use Rattle.std.specs.Prelude.{◌≡◌, IfOk, []};
ghost use Rattle.record.specs.Header.{header_in};
ghost use Rattle.record.specs.Refusal.{answer_number};
ghost use Rattle.record.specs.Rows.{first_row};
ghost use Rattle.rules.specs.Syntax.{Block};
ghost use Rattle.batch.specs.Represents.{batch_answer};
ghost use Rattle.batch.specs.RunBatch.{check_batch_rows, run_batch};
ghost use Rattle.batch.specs.Running.{Passed};

use crate::job::run_jobs;
use checker::{bad_buffer, some_above, too_long};
use program_checker::check_record;
use record::Header;
use record::limit::BATCH;
use record::refusal::Refusal;
use translator::{translation_size, write_translation};

// Rows 1, 14, 2 to 5 and 15: the header where none applies. Row 14 comes before the program is looked at.
fn check(
    program: &[u8],
    used: usize,
    term: &[u8],
    work: &[u8],
    budgets: &[u32],
) -> Result<Header, Refusal>
    ensures rows { answer_number result ≡ first_row (check_batch_rows program.now used term.now work.now budgets.now []) }
    ensures header { IfOk result (λ h. h ≡ header_in program.now) }
{
    if bad_buffer(program, used) {
        return Err(Refusal::BadBuffer);
    }
    if too_long(term.len()) {
        return Err(Refusal::BadBuffer);
    }
    if too_long(work.len()) {
        return Err(Refusal::BadBuffer);
    }
    match budgets.len() {
        1..=BATCH => check_record(program, used),
        _ => Err(Refusal::BadBatch),
    }
}

// Rows 6, 16 and 10, and then the work: nothing is written before all rows are tested. The products are small, for there are at most 64
// budgets and k is at most 16.
fn run_checked(
    program: &[u8],
    used: usize,
    h: Header,
    term: &mut [u8],
    work: &mut [u8],
    budgets: &[u32],
    values: &[u32],
    answers: &mut [u32],
) -> Result<u32, Refusal>
    requires { (P : Block) × Passed h P program.now used term.old work.old budgets.now }
    ensures { batch_answer result term.new work.new answers.new ≡ run_batch program.now used term.old work.old budgets.now values.now answers.old }
{
    let count = budgets.len();
    let k = h.k as usize;
    if values.len() != count * k {
        return Err(Refusal::BadStore);
    }
    if answers.len() != count * (k + 2) {
        return Err(Refusal::BadStore);
    }
    if some_above(values, h.largest()) {
        return Err(Refusal::ValueAboveCeiling);
    }
    let n = translation_size(program, used, h);
    if term.len() < n {
        return Err(Refusal::OutputTooShort);
    }
    if work.len() < n {
        return Err(Refusal::OutputTooShort);
    }
    write_translation(program, used, h, term);
    run_jobs(term, n, h, work, budgets, values, answers);
    work.fill(0);
    Ok(n as u32)
}

// The call: a refusal comes before anything is written.
pub fn run_batch(
    program: &[u8],
    used: usize,
    term: &mut [u8],
    work: &mut [u8],
    budgets: &[u32],
    values: &[u32],
    answers: &mut [u32],
) -> Result<u32, Refusal>
    ensures { batch_answer result term.new work.new answers.new ≡ run_batch program.now used term.old work.old budgets.now values.now answers.old }
{
    let h = check(program, used, term, work, budgets)?;
    run_checked(program, used, h, term, work, budgets, values, answers)
}
