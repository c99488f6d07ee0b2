// What the next step is, looked up before a byte is written (01 "Stepper", "Reducer"). It is the same for both engines, because
// they run in lock step: a rule of the one is a rule of the other.
#![tactic(auto)]

ghost use Rattle.std.specs.Prelude.{◌≡◌, ℕ, suc, ◌+◌, ◌*◌, ◌^◌, ◌<◌, ◌≤◌, false, true};
ghost use Rattle.rules.specs.Store.{up_to};
ghost use Rattle.run.specs.Represents.{as_outcome};
ghost use Rattle.plan.specs.declared.Rule.TheVariants.{Bind, Evaluate, Finished, Leave};
ghost use Rattle.plan.specs.Plan.{plan, plan_raise, plan_reads, plan_turn};

use run::Outcome;

// What the next step does, in the stepper and in the reducer. Finished and Over make none; the others are the edits that the
// paper's rules come to on bytes.
#[derive(Clone, Copy)]
pub enum Rule {
    // The outermost block is empty; a tuple.
    Finished,
    // The next value is too large.
    Over,
    // Rules 3 and 4: a value is stored, and the assignment goes. Let-one of a numeral: its last term, with that variable
    // substituted.
    Bind,
    // Rule 5: the expression becomes a literal. Let-one of succ or pred: that becomes the numeral.
    Evaluate,
    // Rule 6: an empty block goes. Let-all of a tuple: its last term, with every variable substituted.
    Leave,
    // Rule 8: a loop becomes an empty block. Rec of 0: its start tuple.
    Stop,
    // Rule 9: a loop becomes a block of the loop, the index and the body. Rec of q + 1: a let-all of the rec of q and the body.
    Unroll,
}

// The edit: where the command or redex stands, how many blocks or let-alls are open around it, its variable and the value, and
// how many bytes come and go there. So the length of the next state is known before a byte is written.
#[derive(Clone, Copy)]
pub struct Plan {
    pub rule: Rule,
    pub levels: usize,
    pub at: usize,
    pub variable: u32,
    pub value: u32,
    pub up: usize,
    pub down: usize,
}

// Where a step is made: the index of its command or redex, and how many blocks or let-alls are open around it. Its functions are the
// plans by what the step does there, for both engines.
#[derive(Clone, Copy)]
pub struct Place {
    pub at: usize,
    pub levels: usize,
}

impl Place {
    // No step.
    pub fn finished(self) -> Plan
        ensures { result ≡ plan self.levels self.at Finished 0 0 0 0 }
    {
        Plan {
            rule: Rule::Finished,
            levels: self.levels,
            at: self.at,
            variable: 0,
            value: 0,
            up: 0,
            down: 0,
        }
    }

    // The 16 bytes of an assignment go, and so do those of a let-one before its last term.
    pub fn bind(self, variable: u32, value: u32) -> Plan
        ensures { result ≡ plan self.levels self.at Bind variable value 0 16 }
    {
        Plan {
            rule: Rule::Bind,
            variable,
            value,
            down: 16,
            ..self.finished()
        }
    }

    // `down` bytes go where an expression becomes a literal, or succ or pred the numeral.
    pub fn evaluate(self, variable: u32, value: u32, down: usize) -> Plan
        ensures { result ≡ plan self.levels self.at Evaluate variable value 0 down }
    {
        Plan {
            rule: Rule::Evaluate,
            variable,
            value,
            down,
            ..self.finished()
        }
    }

    // `down` bytes go with an empty block, or with a let-all and its tuple.
    pub fn leave(self, down: usize) -> Plan
        ensures { result ≡ plan self.levels self.at Leave 0 0 0 down }
    {
        Plan {
            rule: Rule::Leave,
            down,
            ..self.finished()
        }
    }

    // Plus one, or succ, of this value.
    #[tactic(auto, unfolding(crate::specs::Plan::plan_raise, rules::specs::Store::up_to))]
    pub fn raise(self, variable: u32, value: u32, down: usize, largest: u32) -> Plan
        ensures { result ≡ plan_raise self.levels self.at variable (suc value) down (up_to largest (suc value)) }
    {
        if largest <= value {
            return Plan {
                rule: Rule::Over,
                variable,
                ..self.finished()
            };
        }
        self.evaluate(variable, value + 1, down)
    }

    // A loop, or a rec, by the value of its bound or count. `body` bytes are the loop's commands, or the record of the rec's body.
    #[tactic(auto, unfolding(crate::specs::Plan::plan_turn))]
    pub fn turn(self, variable: u32, value: u32, body: usize) -> Plan
        requires { body < 65536 }
        ensures { result ≡ plan_turn self.levels self.at variable body value }
    {
        if value == 0 {
            return Plan {
                rule: Rule::Stop,
                variable,
                down: 16 + body,
                ..self.finished()
            };
        }
        Plan {
            rule: Rule::Unroll,
            variable,
            value,
            up: 20 + body,
            ..self.finished()
        }
    }
}

// How many heads of 4 bytes stand one behind the other from `start`, by the test whether to go on behind a head: the blocks or let-alls
// around a place. The test stops somewhere, and may be asked up to there.
pub fn levels<F: Fn(usize) -> bool>(start: usize, opens: F) -> usize
    requires { (n : ℕ) × (start + 4 * n < 2 ^ 64) × ((i : ℕ) → i ≤ n → F.pre opens (start + 4 * i)) × (F.post opens (start + 4 * n) true → ⊥) }
    ensures all_open { (i : ℕ) → i < result → F.post opens (start + 4 * i) true }
    ensures stops { F.post opens (start + 4 * result) false }
{
    // Kept: `take_while(..).count()` asks that the test may be asked at each number of a range, which stayed open: it may up to where it stops.
    let mut levels = 0;
    while opens(start + 4 * levels) {
        levels += 1;
    }
    levels
}

// The outcome that a state of `used` bytes reads, first match, from the plan of its next step. What comes is added before what
// goes is taken away: so nothing wraps.
#[tactic(auto, unfolding(crate::specs::Plan::plan_reads))]
pub fn outcome_of(plan: Plan, used: usize, room: usize) -> Outcome
    requires { (used ≤ 16384) × (plan.up ≤ used) × (plan.down ≤ used) }
    ensures { as_outcome result ≡ plan_reads plan plan.rule used room }
{
    match plan.rule {
        Rule::Finished => Outcome::Finished,
        Rule::Over => Outcome::Over,
        _ => run::room_outcome(used + plan.up - plan.down, room),
    }
}
