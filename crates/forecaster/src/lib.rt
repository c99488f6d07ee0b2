// Room and steps foretold (02 C-19): the steps to the end, the longest configuration and the longest term on the way, of a program from
// its start store and without a run. Rows 1 to 6, 15 and 16, then 18, then 19. Nothing is written.
#![tactic(auto)]

ghost use Rattle.std.specs.Prelude.{◌≡◌};
ghost use Rattle.record.specs.Holding.{ProgramWithStore};
ghost use Rattle.rules.specs.Syntax.{Block};
ghost use Rattle.forecast.specs.Forecast.{forecast_call};
ghost use Rattle.forecaster.specs.Represents.{as_forecast, forecast_of};

use bound_check::bound_assigned;
use checker::some_above;
use program_checker::check_program;
use record::Header;
use record::refusal::Refusal;
use room_forecast::{longest_program, longest_term};
use step_forecast::count_steps;

// The three figures.
#[derive(Clone, Copy)]
pub struct Figures {
    pub steps: u64,
    pub program_bytes: u64,
    pub term_bytes: u64,
}

// The answer as it crosses the C boundary: the number of the refusal and zeros, or 0 and the three figures.
#[repr(C)]
#[derive(Clone, Copy)]
pub struct Forecast {
    pub number: u32,
    pub steps: u64,
    pub program_bytes: u64,
    pub term_bytes: u64,
}

impl From<Result<Figures, Refusal>> for Forecast {
    ghost from_gives = { λ answer forecast. as_forecast forecast ≡ forecast_of answer };

    fn from(answer: Result<Figures, Refusal>) -> Forecast {
        match answer {
            Ok(figures) => Forecast {
                number: 0,
                steps: figures.steps,
                program_bytes: figures.program_bytes,
                term_bytes: figures.term_bytes,
            },
            Err(refusal) => Forecast {
                number: refusal.number(),
                steps: 0,
                program_bytes: 0,
                term_bytes: 0,
            },
        }
    }
}

// Rows 18 and 19, and the figures. In a buffer's length of program only the steps can be too many for 64 bits, so only they are tested;
// each length is what stands before the commands, which no step changes, and the most that the commands come to.
fn forecast_lent(buf: &[u8], used: usize, h: Header, store: &[u32]) -> Result<Figures, Refusal>
    requires { (P : Block) × ProgramWithStore h P buf.now used store.now }
    ensures { forecast_of result ≡ forecast_call buf.now used store.now }
{
    let start = h.contents_at() + 4;
    if bound_assigned(buf, start, used) {
        return Err(Refusal::BoundAssigned);
    }
    let Some(steps) = count_steps(buf, store, start, used) else {
        return Err(Refusal::FigureTooLarge);
    };
    let before = start as u64;
    Ok(Figures {
        steps,
        program_bytes: before + longest_program(buf, store, start, used),
        term_bytes: before + longest_term(buf, store, start, used, h.k),
    })
}

// The call.
pub fn forecast_run(buf: &[u8], used: usize, store: &[u32]) -> Result<Figures, Refusal>
    ensures { forecast_of result ≡ forecast_call buf.now used store.now }
{
    let h = check_program(buf, used)?;
    if store.len() != h.k as usize {
        return Err(Refusal::BadStore);
    }
    if some_above(store, h.largest()) {
        return Err(Refusal::ValueAboveCeiling);
    }
    forecast_lent(buf, used, h, store)
}
