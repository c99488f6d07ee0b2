// One step of a configuration made in place, by its plan (01 "Stepper"). Only the bytes of the command and those behind it move;
// the lengths around it are brought up to date by one loop.
#![tactic(auto)]

ghost use Rattle.std.specs.Prelude.{◌≡◌, ◌+◌, ◌<◌, ◌≤◌, length};
ghost use Rattle.rules.specs.Rules.{at};
ghost use Rattle.rules.specs.Syntax.{Block};
ghost use Rattle.record.specs.declared.Header.{Header};
ghost use Rattle.record.specs.Header.{contents_at, ok_of};
ghost use Rattle.command.specs.Plan.{plan_of};
ghost use Rattle.stepping.specs.Perform.{EditFits, Performed, Ready, ValueFits, edited, stopped_at, unrolled_at, valued};
ghost use Rattle.stepping.specs.State.{Stands};

use edit::{put_head, put_lead, put_leaf, relength, remove, spread};
use plan::{Plan, Rule};
use record::kind::Kind;

// Rule 8: a loop's record becomes an empty block's, and its other n bytes go.
#[tactic(auto, unfolding(crate::specs::Perform::stopped_at))]
fn stop(buf: &mut [u8], at: usize, n: usize, used: usize)
    requires { (at + 4 + n ≤ used) × (used ≤ length buf.old) }
    ensures { buf.new ≡ stopped_at buf.old at n used }
{
    remove(buf, at + 4, n, used);
    put_head(buf, at, Kind::Block, 4);
}

// Rule 9: a loop's record of n bytes becomes a block's of n + n bytes: the loop of one time less, the index, and the body.
#[tactic(auto, unfolding(crate::specs::Perform::unrolled_at, place::specs::Edit::unrolled))]
fn unroll(buf: &mut [u8], at: usize, n: usize, used: usize, x: u32, v: u32)
    requires { (20 ≤ n) × (at + n ≤ used) × (used + n ≤ length buf.old) × (0 < v) × (n ≤ 16384) }
    ensures { buf.new ≡ unrolled_at buf.old at n used x v }
{
    let q = v - 1;
    spread(buf, at, n, 20, used);
    put_head(buf, at, Kind::Block, n + n);
    put_leaf(buf, at + 12, Kind::Literal, q);
    put_lead(buf, at + 4 + n, Kind::Assignment, 16, x, Kind::Literal, v);
}

// The command of a plan changed, and what is behind it moved.
#[tactic(auto, unfolding(crate::specs::Perform::edited))]
fn edit(buf: &mut [u8], used: usize, p: Plan)
    requires { EditFits p p.rule used (length buf.old) × (used ≤ length buf.old) × (length buf.old ≤ 16384) }
    ensures { buf.new ≡ edited p p.rule used buf.old }
{
    match p.rule {
        Rule::Finished | Rule::Over => {}
        Rule::Bind => remove(buf, p.at, 16, used),
        Rule::Evaluate => put_leaf(buf, p.at + 8, Kind::Literal, p.value),
        Rule::Leave => remove(buf, p.at, 4, used),
        Rule::Stop => stop(buf, p.at, p.down, used),
        Rule::Unroll => unroll(buf, p.at, p.up, used, p.variable, p.value),
    }
}

// The store's part of a plan.
#[tactic(auto, unfolding(crate::specs::Perform::valued))]
fn keep_value(store: &mut [u32], p: Plan)
    requires { ValueFits p p.rule (length store.old) }
    ensures { store.new ≡ valued p p.rule store.old }
{
    if let Rule::Bind = p.rule {
        run::value::set_value(store, p.variable, p.value);
    }
}

// Makes the step of a plan that the look gave for the program and the store as they are; the result is the record's new length.
// The store changes last: nothing before reads it, and the plan has the value.
pub fn perform(buf: &mut [u8], used: usize, store: &mut [u32], p: Plan, contents: usize) -> usize
    requires { (h : Header) × ((P : Block) × (Ready h P buf.old used store.old p × (contents_at h ≡ contents))) }
    ensures { (h : Header) (P : Block) → Stands h (at P store.old) buf.old used → p ≡ plan_of (contents_at h) (ok_of h) P store.old → contents_at h ≡ contents → Performed h (at P store.old) (length buf.old) buf.new store.new result }
{
    edit(buf, used, p);
    relength(buf, contents, p.levels + 1, p.up, p.down);
    keep_value(store, p);
    used + p.up - p.down
}
