// The calls that move a record from one edition to the other (02 C-18): the same contents behind another header, into another buffer. A
// program and a term differ in their check alone, the two directions in the header and in row 17.
#![tactic(auto)]

ghost use Rattle.std.specs.Prelude.{◌≡◌, IfOk, List, ◌+◌, ◌≤◌, ℕ, length};
ghost use Rattle.record.specs.Answers.{padded};
ghost use Rattle.record.specs.Header.{contents_at, headed, header_in};
ghost use Rattle.checker.specs.Answer.{checked_of};
ghost use Rattle.term.specs.Answer.{wrote_of};
ghost use Rattle.conversion.specs.Convert.{convert_call};
ghost use Rattle.conversion.specs.Converting.{Convertible, HeadedIn, check_sort, is_already};

use checker::too_long;
use edit::put_header;
use record::refusal::Refusal;
use record::{Conversion, Header, Sort};

// Whether no kind was used, or it is that of the edition asked for: the check lets both editions through, so this comes before it.
fn is_already(src: &[u8], used: usize, sort: Sort, to: Conversion) -> bool
    requires { used ≤ length src.now }
    ensures { result ≡ is_already sort to src.now used }
{
    if used < 4 {
        return true;
    }
    buffer::get_u16(src, 2) == record::converted_kind(sort, to).number()
}

fn check(src: &[u8], used: usize, sort: Sort) -> Result<Header, Refusal>
    ensures checks { checked_of result ≡ check_sort sort src.now used }
    ensures header { IfOk result (λ h. h ≡ header_in src.now) }
{
    match sort {
        Sort::Program => program_checker::check_program(src, used),
        Sort::Term => term_checker::check_term(src, used),
    }
}

// The contents behind the header `g`, n bytes in all, and zeros behind them.
fn write_record(src: &[u8], used: usize, sort: Sort, h: Header, g: Header, n: usize, out: &mut [u8])
    requires { ((c : List ℕ) × HeadedIn sort h c src.now used × (n ≡ contents_at g + length c)) × (n ≤ length out.old) }
    ensures { (c : List ℕ) → HeadedIn sort h c src.now used → out.new ≡ padded (length out.old) (headed sort g c) }
{
    let from = h.contents_at();
    put_header(out, sort, g, n);
    moves::copy(src, from, out, g.contents_at(), used - from);
    let room = out.len();
    buffer::zero(out, n, room - n);
}

// Rows 17 and 10 are known before a byte is written. A header that is moved to edition 2 has no ceiling, so row 17 never applies to it.
fn convert_checked(
    src: &[u8],
    used: usize,
    sort: Sort,
    to: Conversion,
    h: Header,
    out: &mut [u8],
) -> Result<u32, Refusal>
    requires { Convertible sort to h src.now used × (length out.old ≤ 16384) }
    ensures { wrote_of result out.new ≡ convert_call sort to src.now used out.old }
{
    let g = h.converted(to);
    if h.largest() < g.largest() {
        return Err(Refusal::SmallCeiling);
    }
    let n = used - h.contents_at() + g.contents_at();
    if out.len() < n {
        return Err(Refusal::OutputTooShort);
    }
    write_record(src, used, sort, h, g, n, out);
    Ok(n as u32)
}

// The call, of a record of either sort and in either direction. Row 1 looks at both buffers before row 2 looks at the source.
pub fn convert(
    src: &[u8],
    used: usize,
    sort: Sort,
    to: Conversion,
    out: &mut [u8],
) -> Result<u32, Refusal>
    ensures { wrote_of result out.new ≡ convert_call sort to src.now used out.old }
{
    if too_long(out.len()) {
        return Err(Refusal::BadBuffer);
    }
    if checker::bad_buffer(src, used) {
        return Err(Refusal::BadBuffer);
    }
    if is_already(src, used, sort, to) {
        return Err(Refusal::BadHeader);
    }
    let h = check(src, used, sort)?;
    convert_checked(src, used, sort, to, h, out)
}
