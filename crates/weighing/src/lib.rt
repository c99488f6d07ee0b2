// Weighing: gross and tare in kilograms, and a rule of rounding, give a start store (01 "Result and weighing", 02 C-11
// and C-15).
#![tactic(auto)]

ghost use Rattle.std.specs.Prelude.{◌≡◌, ◌≤◌, length};
ghost use Rattle.record.specs.Refusal.{answer_number};
ghost use Rattle.weighing.specs.RuleNumber.{HasNumber, rule_number};
ghost use Rattle.weighing.specs.Weigh.{count_of, net_load, tare_larger, weigh_call, weighed};

use record::limit::VARIABLES;
use record::refusal::Refusal;

// The most values that a store has.
const MOST: usize = VARIABLES as usize;

// A rule of rounding.
#[derive(Clone, Copy)]
enum Rule {
    // Rule 1: rounded down.
    Down,
    // Rule 2: rounded to the nearest 20, and 10 over goes up.
    Nearest,
}

// A number that no rule has.
#[derive(Clone, Copy)]
struct NoSuchRule;

impl TryFrom<u32> for Rule {
    type Error = NoSuchRule;

    ghost try_from_gives = { HasNumber };

    fn try_from(number: u32) -> Result<Rule, NoSuchRule> {
        match number {
            1 => Ok(Rule::Down),
            2 => Ok(Rule::Nearest),
            _ => Err(NoSuchRule),
        }
    }
}

impl Rule {
    // A quotient is rounded down. By rule 2 the sum is one of 64 bits: 10 more than the largest value is no u32.
    #[tactic(auto, unfolding(crate::specs::Weigh::count_of))]
    fn count(self, net: u32) -> u32
        ensures { result ≡ count_of (rule_number self) net }
    {
        match self {
            Rule::Down => net / 20,
            Rule::Nearest => ((u64::from(net) + 10) / 20) as u32,
        }
    }
}

#[tactic(auto, unfolding(crate::specs::Weigh::net_load))]
pub fn net_load(gross: u32, tare: u32) -> u32
    ensures { result ≡ net_load gross tare }
{
    gross.abs_diff(tare)
}

// The net load has no sign: a load that leaves heavier than it came is told apart by this.
#[tactic(auto, unfolding(crate::specs::Weigh::tare_larger))]
pub fn tare_larger(gross: u32, tare: u32) -> u32
    ensures { result ≡ tare_larger gross tare }
{
    u32::from(gross < tare)
}

// The count by the rule of this number, and 0 where no rule has it.
#[tactic(auto, unfolding(crate::specs::Weigh::count_of))]
pub fn count_of(rule: u32, net: u32) -> u32
    ensures { result ≡ count_of rule net }
{
    Rule::try_from(rule).map_or(0, |rule| rule.count(net))
}

// Variables 1 and 2 stand at indexes 0 and 1. A store with no value has no variable 1: weigh refuses it before it comes here.
#[tactic(auto, using(crate::proofs::FillLaws::fill_one, crate::proofs::FillLaws::fill_more))]
fn fill(store: &mut [u32], count: u32, larger: u32)
    requires { 1 ≤ length store.old }
    ensures { store.new ≡ weighed (length store.old) count larger }
{
    store[0] = count;
    if 1 < store.len() {
        store[1] = larger;
        store[2..].fill(0);
    }
}

// The call. Rows 6 and 11 are tested before anything is written, so that a refusal leaves the store as it came.
pub fn weigh(rule: u32, gross: u32, tare: u32, store: &mut [u32]) -> Result<(), Refusal>
    ensures { (answer_number result ≡ (weigh_call rule gross tare store.old).number) × (store.new ≡ (weigh_call rule gross tare store.old).store) }
{
    if store.is_empty() || MOST < store.len() {
        return Err(Refusal::BadStore);
    }
    let Ok(_) = Rule::try_from(rule) else {
        return Err(Refusal::BadRule);
    };
    fill(
        store,
        count_of(rule, net_load(gross, tare)),
        tare_larger(gross, tare),
    );
    Ok(())
}
