// The call translate: a program's term into another buffer (01 "Translation and read-back").
ghost use Rattle.std.specs.Prelude.{◌≡◌, ◌≤◌, length};
ghost use Rattle.rules.specs.Syntax.{Block};
ghost use Rattle.record.specs.Holding.{ProgramIn};
ghost use Rattle.term.specs.Answer.{wrote_of};
ghost use Rattle.term.specs.Calls.{translate_call};

use checker::too_long;
use program_checker::check_program;
use record::Header;
use record::refusal::Refusal;
use translator::{translation_size, write_translation};

// The term is measured first, so that a refusal leaves the output as it came.
fn translate_checked(src: &[u8], used: usize, h: Header, out: &mut [u8]) -> Result<u32, Refusal>
    requires { ((P : Block) × ProgramIn h P src.now used) × (length src.now ≤ 16384) × (length out.old ≤ 16384) }
    ensures { wrote_of result out.new ≡ translate_call src.now used out.old }
{
    let n = translation_size(src, used, h);
    if out.len() < n {
        return Err(Refusal::OutputTooShort);
    }
    write_translation(src, used, h, out);
    Ok(n as u32)
}

// Row 1 looks at both buffers before row 2 looks at the source.
pub fn translate(src: &[u8], used: usize, out: &mut [u8]) -> Result<u32, Refusal>
    ensures { wrote_of result out.new ≡ translate_call src.now used out.old }
{
    if too_long(out.len()) {
        return Err(Refusal::BadBuffer);
    }
    let h = check_program(src, used)?;
    translate_checked(src, used, h, out)
}
