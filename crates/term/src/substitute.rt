// The call substitute: a store's values for the free variables of a term, in place (01 "Filling").
ghost use Rattle.std.specs.Prelude.{◌≡◌, ◌≤◌, List, length, ℕ};
ghost use Rattle.rules.specs.FreeVariables.{all_vars};
ghost use Rattle.rules.specs.Syntax.{Term};
ghost use Rattle.record.specs.Holding.{TermIn};
ghost use Rattle.term.specs.Answer.{as_substituted, substituted_of};
ghost use Rattle.term.specs.Calls.{substitute_call};

use checker::some_above;
use record::Header;
use record::refusal::Refusal;
use substitution::substitute::substitute_record;
use term_checker::check_term;

// The used length, and how many variables were replaced (02 C-13).
#[derive(Clone, Copy)]
pub struct Filled {
    pub used: u32,
    pub replaced: u32,
}

// The answer as it crosses the C boundary: the number of the refusal, and 0 for the rest; or 0 and what was filled.
#[repr(C)]
#[derive(Clone, Copy)]
pub struct Substituted {
    pub number: u32,
    pub used: u32,
    pub replaced: u32,
}

impl From<Result<Filled, Refusal>> for Substituted {
    ghost from_gives = { λ answer substituted. (buf : List ℕ) → as_substituted substituted buf ≡ substituted_of answer buf };

    fn from(answer: Result<Filled, Refusal>) -> Substituted {
        match answer {
            Ok(filled) => Substituted {
                number: 0,
                used: filled.used,
                replaced: filled.replaced,
            },
            Err(refusal) => Substituted {
                number: refusal.number(),
                used: 0,
                replaced: 0,
            },
        }
    }
}

// The used length stays: a numeral is as long as a variable.
fn substitute_checked(
    buf: &mut [u8],
    used: usize,
    h: Header,
    store: &[u32],
) -> Result<Filled, Refusal>
    requires { ((t : Term) × TermIn all_vars h t buf.old used) × (length buf.old ≤ 16384) }
    ensures { substituted_of result buf.new ≡ substitute_call buf.old used store.now }
{
    if store.len() != h.k as usize {
        return Err(Refusal::BadStore);
    }
    if some_above(store, h.largest()) {
        return Err(Refusal::ValueAboveCeiling);
    }
    let replaced = substitute_record(buf, used, h, store);
    Ok(Filled {
        used: used as u32,
        replaced: replaced as u32,
    })
}

pub fn substitute(buf: &mut [u8], used: usize, store: &[u32]) -> Result<Filled, Refusal>
    ensures { substituted_of result buf.new ≡ substitute_call buf.old used store.now }
{
    let h = check_term(buf, used)?;
    substitute_checked(buf, used, h, store)
}
