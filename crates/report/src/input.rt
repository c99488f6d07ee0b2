// The input as it was read: its refusals, and the values behind the record.
ghost use Rattle.std.specs.Prelude.{◌≡◌, IfOk, List, [], ℕ, ◌*◌, ◌≤◌, length};
ghost use Rattle.buffer.specs.LittleEndian.{val};
ghost use Rattle.buffer.specs.Slice.{part};
ghost use Rattle.checker.specs.Answer.{checked_of};
ghost use Rattle.record.specs.Answers.{checked_by};
ghost use Rattle.record.specs.Rows.{first_row};
ghost use Rattle.report.specs.Line.{input_rows, k_of_input, program_buffer, values_in};
ghost use Rattle.report.specs.Reads.{RecordRead};

use buffer::{get_u16, get_u32};
use program_checker::check_program;
use record::Header;
use record::limit::BUFFER;
use record::refusal::Refusal;

// Every refusal but the last two, which take the values and the translation to see. Whatever was read, what is accepted fits the buffers.
pub fn check_input(a: &[u8], total: usize) -> Result<Header, Refusal>
    requires { length a.now ≡ program_buffer }
    ensures checks { (input : List ℕ) → RecordRead input a.now total → checked_of result ≡ checked_by (first_row (input_rows input [])) (k_of_input input) }
    ensures fits { IfOk result (λ h. (val (part a.now 0 2) ≤ 16384) × (h.k ≤ 16)) }
{
    if total < 2 {
        return Err(Refusal::BadHeader);
    }
    let said = get_u16(a, 0);
    if BUFFER < said {
        return Err(Refusal::BadBuffer);
    }
    if total < said {
        return Err(Refusal::BadHeader);
    }
    let h = check_program(&a[..said], said)?;
    if total - said != 4 * h.k as usize {
        return Err(Refusal::BadStore);
    }
    Ok(h)
}

// The values are 4 bytes each.
#[tactic(auto, using(crate::proofs::InputLaws::none_read, crate::proofs::InputLaws::value_read, crate::proofs::InputLaws::values_read))]
pub fn read_values(bytes: &[u8], store: &mut [u32])
    requires { 4 * length store.old ≤ length bytes.now }
    ensures { store.new ≡ values_in (length store.old) bytes.now }
{
    for (i, value) in store.iter_mut().enumerate() {
        *value = get_u32(bytes, 4 * i);
    }
}
