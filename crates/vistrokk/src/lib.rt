// The C boundary: one thin function for each call, of the names in include/vistrokk.h. Each hands its slices on to the proved
// function and its answer back by value. A lent slice is a pointer and a length.
#![tactic(auto)]

ghost use Rattle.std.specs.Prelude.{◌≡◌};
ghost use Rattle.record.specs.Answers.{check_program, check_term};
ghost use Rattle.record.specs.declared.Conversion.TheVariants.{ToFirst, ToSecond};
ghost use Rattle.record.specs.Header.{program, term};
ghost use Rattle.batch.specs.Represents.{as_batch};
ghost use Rattle.batch.specs.RunBatch.{run_batch};
ghost use Rattle.checker.specs.Answer.{as_checked};
ghost use Rattle.conversion.specs.Convert.{convert_call};
ghost use Rattle.counter.specs.Represents as counter;
ghost use Rattle.counting.specs.CountingCall.{expand_call, run_counting};
ghost use Rattle.forecast.specs.Forecast.{forecast_call};
ghost use Rattle.forecaster.specs.Represents.{as_forecast};
ghost use Rattle.run.specs.Represents.{in_numbers};
ghost use Rattle.stepper.specs.RunStepper.{run_stepper};
ghost use Rattle.reducer.specs.Represents as reducer;
ghost use Rattle.reducer.specs.RunReducer.{run_reducer};
ghost use Rattle.term.specs.Answer.{as_substituted, as_wrote};
ghost use Rattle.term.specs.Calls.{read_back_call, result_call, substitute_call, translate_call};
ghost use Rattle.weighing.specs.Weigh.{weigh_call};

use conversion::convert;
use record::refusal::{Refusal, number_of};
use record::{Conversion, Sort};

#[unsafe(no_mangle)]
pub extern "C" fn vistrokk_check_program(buf: &[u8], used: usize) -> checker::Checked
    ensures { as_checked result ≡ check_program buf.now used }
{
    program_checker::check_program(buf, used).into()
}

#[unsafe(no_mangle)]
pub extern "C" fn vistrokk_check_term(buf: &[u8], used: usize) -> checker::Checked
    ensures { as_checked result ≡ check_term buf.now used }
{
    term_checker::check_term(buf, used).into()
}

#[unsafe(no_mangle)]
pub extern "C" fn vistrokk_translate(src: &[u8], used: usize, out: &mut [u8]) -> term::Written
    ensures { as_wrote result out.new ≡ translate_call src.now used out.old }
{
    term::translate::translate(src, used, out).into()
}

#[unsafe(no_mangle)]
pub extern "C" fn vistrokk_read_back(src: &[u8], used: usize, out: &mut [u8]) -> term::Written
    ensures { as_wrote result out.new ≡ read_back_call src.now used out.old }
{
    term::read_back::read_back(src, used, out).into()
}

#[unsafe(no_mangle)]
pub extern "C" fn vistrokk_substitute(
    buf: &mut [u8],
    used: usize,
    store: &[u32],
) -> term::substitute::Substituted
    ensures { as_substituted result buf.new ≡ substitute_call buf.old used store.now }
{
    term::substitute::substitute(buf, used, store).into()
}

#[unsafe(no_mangle)]
pub extern "C" fn vistrokk_result(buf: &[u8], used: usize, store: &mut [u32]) -> u32
    ensures { (result ≡ (result_call buf.now used store.old).number) × (store.new ≡ (result_call buf.now used store.old).store) }
{
    number_of(term::result::result(buf, used, store))
}

#[unsafe(no_mangle)]
pub extern "C" fn vistrokk_weigh(rule: u32, gross: u32, tare: u32, store: &mut [u32]) -> u32
    ensures { (result ≡ (weigh_call rule gross tare store.old).number) × (store.new ≡ (weigh_call rule gross tare store.old).store) }
{
    number_of(weighing::weigh(rule, gross, tare, store))
}

#[unsafe(no_mangle)]
pub extern "C" fn vistrokk_run_stepper(
    buf: &mut [u8],
    used: usize,
    store: &mut [u32],
    budget: u32,
) -> run::RunNumbers
    ensures { (result ≡ in_numbers (run_stepper buf.old used store.old budget).answer) × (buf.new ≡ (run_stepper buf.old used store.old budget).buf) × (store.new ≡ (run_stepper buf.old used store.old budget).store) }
{
    stepper::run_stepper(buf, used, store, budget)
        .map_err(Refusal::number)
        .into()
}

#[unsafe(no_mangle)]
pub extern "C" fn vistrokk_run_reducer(
    buf: &mut [u8],
    used: usize,
    budget: u32,
) -> reducer::answer::ReducedNumbers
    ensures { (result ≡ reducer.in_numbers (run_reducer buf.old used budget).answer (run_reducer buf.old used budget).replaced) × (buf.new ≡ (run_reducer buf.old used budget).buf) }
{
    reducer::run_reducer(buf, used, budget).into()
}

#[unsafe(no_mangle)]
pub extern "C" fn vistrokk_run_counting(
    program: &[u8],
    used: usize,
    state: &mut [u32; 189],
    store: &mut [u32],
    budget: u32,
) -> counter::answer::CountedNumbers
    ensures { (result ≡ counter.in_numbers (run_counting program.now used state.old store.old budget).answer) × (state.new ≡ (run_counting program.now used state.old store.old budget).words) × (store.new ≡ (run_counting program.now used state.old store.old budget).store) }
{
    counter::run_counting(program, used, state, store, budget).into()
}

#[unsafe(no_mangle)]
pub extern "C" fn vistrokk_expand(
    program: &[u8],
    used: usize,
    state: &[u32; 189],
    store: &[u32],
    out: &mut [u8],
) -> term::Written
    ensures { as_wrote result out.new ≡ expand_call program.now used state.now store.now out.old }
{
    counter::expand::expand(program, used, state, store, out).into()
}

#[unsafe(no_mangle)]
pub extern "C" fn vistrokk_run_batch(
    program: &[u8],
    used: usize,
    term: &mut [u8],
    work: &mut [u8],
    budgets: &[u32],
    values: &[u32],
    answers: &mut [u32],
) -> term::Written
    ensures { as_batch result term.new work.new answers.new ≡ run_batch program.now used term.old work.old budgets.now values.now answers.old }
{
    batch::run_batch(program, used, term, work, budgets, values, answers).into()
}

#[unsafe(no_mangle)]
pub extern "C" fn vistrokk_program_to_edition_2(
    src: &[u8],
    used: usize,
    out: &mut [u8],
) -> term::Written
    ensures { as_wrote result out.new ≡ convert_call program ToSecond src.now used out.old }
{
    convert(src, used, Sort::Program, Conversion::ToSecond, out).into()
}

#[unsafe(no_mangle)]
pub extern "C" fn vistrokk_program_to_edition_1(
    src: &[u8],
    used: usize,
    out: &mut [u8],
) -> term::Written
    ensures { as_wrote result out.new ≡ convert_call program ToFirst src.now used out.old }
{
    convert(src, used, Sort::Program, Conversion::ToFirst, out).into()
}

#[unsafe(no_mangle)]
pub extern "C" fn vistrokk_term_to_edition_2(
    src: &[u8],
    used: usize,
    out: &mut [u8],
) -> term::Written
    ensures { as_wrote result out.new ≡ convert_call term ToSecond src.now used out.old }
{
    convert(src, used, Sort::Term, Conversion::ToSecond, out).into()
}

#[unsafe(no_mangle)]
pub extern "C" fn vistrokk_term_to_edition_1(
    src: &[u8],
    used: usize,
    out: &mut [u8],
) -> term::Written
    ensures { as_wrote result out.new ≡ convert_call term ToFirst src.now used out.old }
{
    convert(src, used, Sort::Term, Conversion::ToFirst, out).into()
}

#[unsafe(no_mangle)]
pub extern "C" fn vistrokk_forecast_run(
    buf: &[u8],
    used: usize,
    store: &[u32],
) -> forecaster::Forecast
    ensures { as_forecast result ≡ forecast_call buf.now used store.now }
{
    forecaster::forecast_run(buf, used, store).into()
}
