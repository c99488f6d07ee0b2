// The writing out of what a state stands for (02 C-14): a configuration of 01, as a program's record in another buffer.
ghost use Rattle.std.specs.Prelude.{◌≡◌, List, ℕ, ◌+◌, ◌≤◌, leb, length};
ghost use Rattle.rules.specs.Syntax.{Block};
ghost use Rattle.record.specs.Answers.{padded};
ghost use Rattle.record.specs.Header.{encode_program};
ghost use Rattle.term.specs.Answer.{wrote_of};
ghost use Rattle.counting.specs.Counting.{State, expand};
ghost use Rattle.counting.specs.CountingCall.{expand_call};
ghost use Rattle.counting.specs.CountingMeaning.{Passes};

use crate::check::check;
use checker::too_long;
use edit::{put_head, put_header};
use expansion::{expansion_size, write_expansion};
use record::kind::Kind;
use record::refusal::Refusal;
use record::{Header, Sort};
use state_words::program::Program;

// Whether `size` bytes behind `start` others fit. The size can be far above what any buffer holds.
fn fits(room: usize, start: usize, size: u64) -> bool
    ensures { result ≡ leb (start + size) room }
{
    if room < start {
        return false;
    }
    size <= (room - start) as u64
}

// The record, which is `total` bytes long, and zeros behind it.
fn write_record(
    program: &[u8],
    used: usize,
    h: Header,
    state: &[u32; 189],
    out: &mut [u8],
    total: usize,
)
    requires { ((store : List ℕ) × (P : Block) × (s : State) × Passes h P program.now used state.now store s × (total ≡ length (encode_program h (expand s)))) × (total ≤ length out.old) × (length out.old ≤ 16384) }
    ensures { (store : List ℕ) (P : Block) (s : State) → Passes h P program.now used state.now store s → total ≡ length (encode_program h (expand s)) → out.new ≡ padded (length out.old) (encode_program h (expand s)) }
{
    let contents = h.contents_at();
    put_header(out, Sort::Program, h, total);
    put_head(out, contents, Kind::Block, total - contents);
    let start = contents + 4;
    let counted = Program {
        bytes: program,
        used,
        start,
        largest: h.largest(),
    };
    write_expansion(counted, state, out, start);
    let room = out.len();
    buffer::zero(out, total, room - total);
}

// It is measured first, so that a refusal leaves the output as it came.
fn expand_accepted(
    program: &[u8],
    used: usize,
    h: Header,
    state: &[u32; 189],
    out: &mut [u8],
) -> Result<u32, Refusal>
    requires { ((store : List ℕ) × (P : Block) × (s : State) × Passes h P program.now used state.now store s) × (length out.old ≤ 16384) }
    ensures { (store : List ℕ) (P : Block) (s : State) → Passes h P program.now used state.now store s → wrote_of result out.new ≡ expand_call program.now used state.now store out.old }
{
    let start = h.contents_at() + 4;
    let counted = Program {
        bytes: program,
        used,
        start,
        largest: h.largest(),
    };
    let size = expansion_size(counted, state);
    if fits(out.len(), start, size) {
        let total = start + size as usize;
        write_record(program, used, h, state, out, total);
        return Ok(total as u32);
    }
    Err(Refusal::OutputTooShort)
}

// Row 1 looks at both buffers before row 2 looks at the program.
pub fn expand(
    program: &[u8],
    used: usize,
    state: &[u32; 189],
    store: &[u32],
    out: &mut [u8],
) -> Result<u32, Refusal>
    ensures { wrote_of result out.new ≡ expand_call program.now used state.now store.now out.old }
{
    if too_long(out.len()) {
        return Err(Refusal::BadBuffer);
    }
    let h = check(program, used, state, store)?;
    expand_accepted(program, used, h, state, out)
}
