// The call read back: the program of a term that is a translation, into another buffer (01 "Translation and read-back").
ghost use Rattle.std.specs.Prelude.{◌≡◌, ◌≤◌, length};
ghost use Rattle.rules.specs.FreeVariables.{all_vars};
ghost use Rattle.rules.specs.Syntax.{Term};
ghost use Rattle.record.specs.Holding.{TermIn};
ghost use Rattle.term.specs.Answer.{wrote_of};
ghost use Rattle.term.specs.Calls.{read_back_call};

use checker::too_long;
use readback::{source_size, write_source};
use recognition::is_translation;
use record::Header;
use record::refusal::Refusal;
use term_checker::check_term;

// The whole term is looked at and measured first, so that a refusal leaves the output as it came.
fn read_back_checked(src: &[u8], used: usize, h: Header, out: &mut [u8]) -> Result<u32, Refusal>
    requires { ((t : Term) × TermIn all_vars h t src.now used) × (length src.now ≤ 16384) × (length out.old ≤ 16384) }
    ensures { wrote_of result out.new ≡ read_back_call src.now used out.old }
{
    if !is_translation(src, used, h) {
        return Err(Refusal::NoProgram);
    }
    let n = source_size(src, used, h);
    if out.len() < n {
        return Err(Refusal::OutputTooShort);
    }
    write_source(src, used, h, out);
    Ok(n as u32)
}

// Row 1 looks at both buffers before row 2 looks at the source.
pub fn read_back(src: &[u8], used: usize, out: &mut [u8]) -> Result<u32, Refusal>
    ensures { wrote_of result out.new ≡ read_back_call src.now used out.old }
{
    if too_long(out.len()) {
        return Err(Refusal::BadBuffer);
    }
    let h = check_term(src, used)?;
    read_back_checked(src, used, h, out)
}
