// The call result: the values of a finished term into a store (01 "Result and weighing").
ghost use Rattle.std.specs.Prelude.{◌≡◌, ◌≤◌, length};
ghost use Rattle.rules.specs.FreeVariables.{all_vars};
ghost use Rattle.rules.specs.Syntax.{Term};
ghost use Rattle.record.specs.Holding.{TermIn};
ghost use Rattle.record.specs.Refusal.{answer_number};
ghost use Rattle.term.specs.Calls.{result_call};

use numerals::{copy_numerals, is_finished};
use record::Header;
use record::refusal::Refusal;
use substitution::closed::is_closed;
use term_checker::check_term;

fn result_checked(buf: &[u8], used: usize, h: Header, store: &mut [u32]) -> Result<(), Refusal>
    requires { ((t : Term) × TermIn all_vars h t buf.now used) × (length buf.now ≤ 16384) }
    ensures { (answer_number result ≡ (result_call buf.now used store.old).number) × (store.new ≡ (result_call buf.now used store.old).store) }
{
    if store.len() != h.k as usize {
        return Err(Refusal::BadStore);
    }
    if !is_closed(buf, used, h) {
        return Err(Refusal::FreeVariable);
    }
    if !is_finished(buf, used, h) {
        return Err(Refusal::Unfinished);
    }
    copy_numerals(buf, used, h, store);
    Ok(())
}

pub fn result(buf: &[u8], used: usize, store: &mut [u32]) -> Result<(), Refusal>
    ensures { (answer_number result ≡ (result_call buf.now used store.old).number) × (store.new ≡ (result_call buf.now used store.old).store) }
{
    let h = check_term(buf, used)?;
    result_checked(buf, used, h, store)
}
