// The calls on terms. Each checks its whole record (rows 1 to 5 and 15) and then does its work in a function of its own, which asks for
// what the check has made sure of.
#![tactic(auto)]

ghost use Rattle.std.specs.Prelude.{◌≡◌, List, ℕ};
ghost use Rattle.term.specs.Answer.{as_wrote, wrote_of};

pub mod read_back;
pub mod result;
pub mod substitute;
pub mod translate;

use record::refusal::Refusal;

// The answer of a call that writes a buffer, as it crosses the C boundary: the number of the refusal and 0, or 0 and the new used length.
#[repr(C)]
#[derive(Clone, Copy)]
pub struct Written {
    pub number: u32,
    pub used: u32,
}

impl From<Result<u32, Refusal>> for Written {
    ghost from_gives = { λ answer written. (out : List ℕ) → as_wrote written out ≡ wrote_of answer out };

    fn from(answer: Result<u32, Refusal>) -> Written {
        match answer {
            Ok(used) => Written { number: 0, used },
            Err(refusal) => Written {
                number: refusal.number(),
                used: 0,
            },
        }
    }
}
