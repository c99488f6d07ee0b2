// The rows that the two calls share: 1 to 5, 12, 15, 6, 13 and 16, in this order.
ghost use Rattle.std.specs.Prelude.{◌≡◌, IfOk, false, not, true, ◌++◌, [], ◌∷◌, ◌⊎◌, ◌≤◌, length};
ghost use Rattle.rules.specs.Literals.{small_values};
ghost use Rattle.rules.specs.Store.{up_to};
ghost use Rattle.rules.specs.Syntax.{Block};
ghost use Rattle.record.specs.Header.{header_in};
ghost use Rattle.record.specs.Holding.{ProgramIn};
ghost use Rattle.record.specs.Refusal.{answer_number};
ghost use Rattle.record.specs.Rows.{first_row, row};
ghost use Rattle.counting.specs.CountingCall.{counting_rows, lent_rows};
ghost use Rattle.counting.specs.SmallState.{counts_of};
ghost use Rattle.counting.specs.StateWords.{unpacked};
ghost use Rattle.counter.specs.CheckRows.{record_rows};

use checker::some_above;
use nesting_check::too_deep;
use program_checker::check_program;
use record::Header;
use record::refusal::Refusal;
use state_check::check_state;
use state_check::counts::counts_above;
use state_words::program::Program;

// Whether what the check of a program answers is one of rows 1 to 5, which come before row 12. Row 15, its last, comes behind it.
fn is_early(answer: Result<Header, Refusal>) -> bool
    ensures { (result ≡ true → (answer_number answer ≡ 0 → ⊥) × (answer_number answer ≡ 15 → ⊥)) × (result ≡ false → (answer_number answer ≡ 0) ⊎ (answer_number answer ≡ 15)) }
{
    !matches!(answer, Ok(_) | Err(Refusal::LiteralAboveCeiling))
}

// Rows 1 to 5, 12 and 15: the header where none applies.
fn check_record(program: &[u8], used: usize) -> Result<Header, Refusal>
    ensures rows { answer_number result ≡ first_row (record_rows program.now used) }
    ensures header { IfOk result (λ h. h ≡ header_in program.now) }
{
    let checked = check_program(program, used);
    if is_early(checked) {
        return checked;
    }
    let h = record::read_header(program);
    if too_deep(program, used, h.contents_at() + 4) {
        return Err(Refusal::TooDeep);
    }
    checked
}

// Whether a value of the store or of the state is above the largest.
fn value_above(state: &[u32; 189], store: &[u32], largest: u32) -> bool
    ensures { result ≡ not (small_values (up_to largest) (store.now ++ counts_of (unpacked state.now))) }
{
    if some_above(store, largest) {
        return true;
    }
    counts_above(state, largest)
}

// Rows 13 and 16, by whether the words hold no state and whether a value is above the largest.
fn state_row(wrong: bool, above: bool) -> Result<(), Refusal>
    ensures { answer_number result ≡ first_row (row 13 wrong ∷ row 16 above ∷ []) }
{
    if wrong {
        return Err(Refusal::BadState);
    }
    if above {
        return Err(Refusal::ValueAboveCeiling);
    }
    Ok(())
}

// Rows 6, 13 and 16, for a program that the rows before let through.
fn check_lent(
    program: &[u8],
    used: usize,
    h: Header,
    state: &[u32; 189],
    store: &[u32],
) -> Result<(), Refusal>
    requires { ((P : Block) × ProgramIn h P program.now used) × (length program.now ≤ 16384) }
    ensures { answer_number result ≡ first_row (lent_rows program.now used state.now store.now []) }
{
    if store.len() != h.k as usize {
        return Err(Refusal::BadStore);
    }
    let counted = Program {
        bytes: program,
        used,
        start: h.contents_at() + 4,
        largest: h.largest(),
    };
    let right = check_state(counted, state);
    let above = value_above(state, store, counted.largest);
    state_row(!right, above)
}

// All of them: the header where none applies.
pub fn check(
    program: &[u8],
    used: usize,
    state: &[u32; 189],
    store: &[u32],
) -> Result<Header, Refusal>
    ensures rows { answer_number result ≡ first_row (counting_rows program.now used state.now store.now) }
    ensures header { IfOk result (λ h. h ≡ header_in program.now) }
{
    let h = check_record(program, used)?;
    check_lent(program, used, h, state, store)?;
    Ok(h)
}
