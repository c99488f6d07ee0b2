// The check of a program. The device's stack is small and blocks nest deeply: of a command and the rest of its row the
// shorter is checked by a call and the longer by the loop, so the calls nest no deeper than the logarithm of the length.
#![tactic(auto)]

ghost use Rattle.std.specs.Prelude.{false, ◌≡◌, IfOk, drop, length};
ghost use Rattle.record.specs.Answers.{check_program};
ghost use Rattle.record.specs.Front.{Front, only, u16};
ghost use Rattle.record.specs.Header.{block_in, header_in};
ghost use Rattle.record.specs.Program.{decode_block, read_bound, read_expr};
ghost use Rattle.record.specs.Rows.{bad_buffer};
ghost use Rattle.checker.specs.Answer.{checked_of};
ghost use Rattle.checker.specs.Verdict.{verdict};
ghost use Rattle.checker.specs.declared.Verdict.TheVariants.{Malformed};
ghost use Rattle.program_checker.specs.BlockVerdict.{block_verdict, bound_rating, expr_rating};
ghost use Rattle.program_checker.specs.OpensCommand.{ChecksCommand, OpensCommand};

use checker::{Limits, Verdict, bad_buffer, check_header, check_value, check_variable, worst};
use reader::Head;
use record::kind::Kind;
use record::refusal::Refusal;
use record::{Class, Header, Sort};

// A command that was opened: what its head was found to be, and where the commands inside it start.
#[derive(Clone, Copy)]
struct Opened {
    verdict: Verdict,
    inner: usize,
}

fn check_expression(s: &[u8], limits: Limits) -> Verdict
    requires { length s.now ≡ 8 }
    ensures { result ≡ verdict (expr_rating limits.k limits.largest) (only (read_expr s.now)) }
{
    if buffer::get_u16(s, 0) != 8 {
        return Verdict::Malformed;
    }
    let kind = buffer::get_u16(s, 2);
    match record::class_of(kind) {
        Class::Expression => match Kind::named(kind) {
            Kind::Literal => check_value(buffer::get_u32(s, 4), limits.largest),
            _ => check_variable(buffer::get_u32(s, 4), limits.k),
        },
        _ => Verdict::Malformed,
    }
}

// A bound is a literal or a variable, the first two kinds of expressions.
fn check_bound(s: &[u8], limits: Limits) -> Verdict
    requires { length s.now ≡ 8 }
    ensures { result ≡ verdict (bound_rating limits.k limits.largest) (only (read_bound s.now)) }
{
    match Kind::read(s, 2) {
        Kind::Literal | Kind::Variable => check_expression(s, limits),
        _ => Verdict::Malformed,
    }
}

fn check_assignment(s: &[u8], limits: Limits) -> Verdict
    requires front { Front s.now (length s.now) }
    requires s_value { u16 s.now 2 ≡ 2 }
    ensures { result ≡ block_verdict limits.k limits.largest (decode_block s.now) }
{
    if s.len() != 16 {
        return Verdict::Malformed;
    }
    worst(
        check_variable(buffer::get_u32(s, 4), limits.k),
        check_expression(&s[8..16], limits),
    )
}

// A record that is no command: its head takes all of it, and nothing is inside.
fn no_command(length: usize) -> Opened
    ensures { (result.verdict ≡ Malformed) × (result.inner ≡ length) }
{
    Opened {
        verdict: Verdict::Malformed,
        inner: length,
    }
}

fn open_loop(s: &[u8], limits: Limits) -> Opened
    requires front { Front s.now (length s.now) }
    requires s_value { u16 s.now 2 ≡ 3 }
    ensures { OpensCommand limits.k limits.largest s.now result.verdict result.inner }
{
    if s.len() < 20 {
        return no_command(s.len());
    }
    if reader::only_at(s, 16, Kind::Block) {
        let index = check_variable(buffer::get_u32(s, 4), limits.k);
        Opened {
            verdict: worst(index, check_bound(&s[8..16], limits)),
            inner: 20,
        }
    } else {
        no_command(s.len())
    }
}

// The class decides, then the kind; a program's own is no command's. A head with nothing inside ends where the record ends.
fn open_command(s: &[u8], limits: Limits) -> Opened
    requires { Front s.now (length s.now) }
    ensures { OpensCommand limits.k limits.largest s.now result.verdict result.inner }
{
    let kind = buffer::get_u16(s, 2);
    match record::class_of(kind) {
        Class::Program => match Kind::named(kind) {
            Kind::Block => Opened {
                verdict: Verdict::Good,
                inner: 4,
            },
            Kind::Assignment => Opened {
                verdict: check_assignment(s, limits),
                inner: s.len(),
            },
            Kind::Loop => open_loop(s, limits),
            _ => no_command(s.len()),
        },
        _ => no_command(s.len()),
    }
}

// The contents of a block's record: its commands in a row, from `at` up to `end` those that are left to check. A call for an
// empty row would cost as much as a small command, so none is made here or in `check_command`.
#[cycle(check_block_check_command)]
fn check_block(s: &[u8], limits: Limits) -> Verdict
    ensures { result ≡ block_verdict limits.k limits.largest (decode_block s.now) }
{
    let mut found = Verdict::Good;
    let mut at = 0;
    let mut end = s.len();
    // Kept: a walk whose end moves too: behind a command that is taken apart, what follows is checked by a call. No iterator goes on so.
    while at < end {
        let Head::Record(length, _) = reader::head_at(&s[..end], at) else {
            return Verdict::Malformed;
        };
        let next = reader::after(&s[..end], at);
        let whole = length <= end - next;
        if !whole && next < end {
            found = worst(found, check_block(&s[next..end], limits));
            end = next;
        }
        let opened = check_command(&s[at..next], limits, whole);
        found = worst(found, opened.verdict);
        at += opened.inner;
    }
    found
}

// One command's record: its head is opened and judged here alone. Where the whole of it is asked for, the commands inside are
// checked too, and none is left.
#[cycle(check_block_check_command)]
fn check_command(s: &[u8], limits: Limits, whole: bool) -> Opened
    requires { Front s.now (length s.now) }
    ensures { ChecksCommand limits.k limits.largest s.now whole result.verdict result.inner }
{
    let opened = open_command(s, limits);
    if whole && opened.inner < s.len() {
        return Opened {
            verdict: worst(opened.verdict, check_block(&s[opened.inner..], limits)),
            inner: s.len(),
        };
    }
    opened
}

// What stands behind a program's header: one block.
fn check_contents(s: &[u8], start: usize, limits: Limits) -> Verdict
    ensures { result ≡ block_verdict limits.k limits.largest (block_in (drop start s.now)) }
{
    if reader::only_at(s, start, Kind::Block) {
        check_block(&s[start + 4..], limits)
    } else {
        Verdict::Malformed
    }
}

// Rows 2 to 5 and 15, of a buffer that row 1 lets through: the header where none applies.
pub fn check_record(buf: &[u8], used: usize) -> Result<Header, Refusal>
    requires { bad_buffer buf.now used ≡ false }
    ensures checks { checked_of result ≡ check_program buf.now used }
    ensures header { IfOk result (λ h. h ≡ header_in buf.now) }
{
    let h = check_header(buf, used, Sort::Program)?;
    check_contents(&buf[..used], h.contents_at(), Limits::from(h)).row()?;
    Ok(h)
}

pub fn check_program(buf: &[u8], used: usize) -> Result<Header, Refusal>
    ensures checks { checked_of result ≡ check_program buf.now used }
    ensures header { IfOk result (λ h. h ≡ header_in buf.now) }
{
    if bad_buffer(buf, used) {
        return Err(Refusal::BadBuffer);
    }
    check_record(buf, used)
}
