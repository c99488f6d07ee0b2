// One reduction of a closed term made in place, by its plan (01 "Reducer"). Only the bytes of the redex and those behind it move;
// the lengths around it are brought up to date by one loop.
#![tactic(auto)]

ghost use Rattle.std.specs.Prelude.{◌≡◌, ◌≤◌, length};
ghost use Rattle.rules.specs.Syntax.{Term};
ghost use Rattle.record.specs.declared.Header.{Header};
ghost use Rattle.record.specs.Header.{contents_at, ok_of};
ghost use Rattle.plan.specs.declared.Rule.TheVariants.{Bind, Evaluate, Leave, Stop, Unroll};
ghost use Rattle.redex.specs.Plan.{plan_of};
ghost use Rattle.reducing.specs.Perform.{EditFits, Edited, Performed, Ready};
ghost use Rattle.reducing.specs.State.{Stands};

use buffer::{get_u16, put_u16};
use edit::{put_head, put_lead, put_leaf, relength, remove, spread};
use moves::move_down;
use numerals::values::{SLOTS, only, put_tuple};
use plan::{Plan, Rule};
use record::kind::Kind;
use substitution::substitute::substitute_along;

// What a reduction leaves: the record's new length, and how many variables it replaced.
#[derive(Clone, Copy)]
pub struct Reduction {
    pub used: usize,
    pub replaced: usize,
}

// Let-one of a numeral: the value goes into its last term, and its other 16 bytes go.
fn let_one(buf: &mut [u8], used: usize, k: u32, p: Plan) -> usize
    requires { EditFits k p Bind buf.old used × (used ≤ length buf.old) }
    ensures { Edited k p Bind used buf.old buf.new result }
{
    let mut values = only(p.variable as usize, p.value);
    let replaced = substitute_along(buf, p.at + 16, k, &mut values);
    remove(buf, p.at, 16, used);
    replaced
}

// Let-one of succ or pred: that becomes the numeral, which has 4 bytes less.
fn set_numeral(buf: &mut [u8], used: usize, k: u32, p: Plan)
    requires { EditFits k p Evaluate buf.old used × (used ≤ length buf.old) }
    ensures { Edited k p Evaluate used buf.old buf.new 0 }
{
    let n = get_u16(buf, p.at);
    remove(buf, p.at + 8, 4, used);
    put_u16(buf, p.at, n - 4);
    put_leaf(buf, p.at + 8, Kind::Numeral, p.value);
}

// Let-all of a tuple: its numerals go into the last term, and the bytes of its head and the tuple go.
// The hint promises nothing: inlined in the run's loop, what it does with vector registers makes the loops there that move bytes a third slower.
#[inline(never)]
fn let_all(buf: &mut [u8], used: usize, k: u32, p: Plan) -> usize
    requires { EditFits k p Leave buf.old used × (used ≤ length buf.old) }
    ensures { Edited k p Leave used buf.old buf.new result }
{
    let mut values = [None; SLOTS];
    put_tuple(&mut values, buf, p.at + 4, k);
    let replaced = substitute_along(buf, p.at + p.down, k, &mut values);
    remove(buf, p.at, p.down, used);
    replaced
}

// Rec of 0: its start tuple moves down to its place, and the bytes behind that go.
fn stop(buf: &mut [u8], used: usize, k: u32, p: Plan)
    requires { EditFits k p Stop buf.old used × (used ≤ length buf.old) }
    ensures { Edited k p Stop used buf.old buf.new 0 }
{
    let n = 4 + 8 * (k as usize);
    move_down(buf, p.at + 16, p.at, n);
    remove(buf, p.at + n, p.down, used);
}

// Rec of q + 1: a let-all of the rec of q and the body.
fn unroll(buf: &mut [u8], used: usize, k: u32, p: Plan)
    requires { EditFits k p Unroll buf.old used × (length buf.old ≤ 16384) }
    ensures { Edited k p Unroll used buf.old buf.new 0 }
{
    let row = 8 * (k as usize);
    let n = p.up + row;
    let q = p.value - 1;
    spread(buf, p.at, n, 20 + row, used);
    put_head(buf, p.at, Kind::LetAll, n + p.up);
    put_leaf(buf, p.at + 12, Kind::Numeral, q);
    put_lead(
        buf,
        p.at + 4 + n,
        Kind::LetOne,
        p.up - 4,
        p.variable,
        Kind::Numeral,
        p.value,
    );
}

// The redex of a plan changed, and what is behind it moved. Only the two rules that substitute replace variables.
fn edit(buf: &mut [u8], used: usize, k: u32, p: Plan) -> usize
    requires { EditFits k p p.rule buf.old used × (used ≤ length buf.old) × (length buf.old ≤ 16384) }
    ensures { Edited k p p.rule used buf.old buf.new result }
{
    match p.rule {
        Rule::Finished | Rule::Over => 0,
        Rule::Bind => let_one(buf, used, k, p),
        Rule::Evaluate => {
            set_numeral(buf, used, k, p);
            0
        }
        Rule::Leave => let_all(buf, used, k, p),
        Rule::Stop => {
            stop(buf, used, k, p);
            0
        }
        Rule::Unroll => {
            unroll(buf, used, k, p);
            0
        }
    }
}

// Makes the reduction of a plan that the look gave for the term as it is.
pub fn perform(buf: &mut [u8], used: usize, k: u32, p: Plan, contents: usize) -> Reduction
    requires { (h : Header) × ((t : Term) × (Ready h t buf.old used p × ((h.k ≡ k) × (contents_at h ≡ contents)))) }
    ensures { (h : Header) (t : Term) → Stands h t buf.old used → p ≡ plan_of (contents_at h) (ok_of h) t → h.k ≡ k → contents_at h ≡ contents → Performed h t (length buf.old) buf.new result.used result.replaced }
{
    let replaced = edit(buf, used, k, p);
    relength(buf, contents, p.levels, p.up, p.down);
    Reduction {
        used: used + p.up - p.down,
        replaced,
    }
}
