// The next step of a configuration, looked up before a byte is written (01 "Stepper"): its plan, from the bytes and the store,
// with nothing changed.
#![tactic(auto)]

ghost use Rattle.std.specs.Prelude.{◌≡◌, ℕ, ◌+◌, ◌*◌, ◌≤◌, ◌<◌, length};
ghost use Rattle.rules.specs.Syntax.{Block, Bound, Expr, assign, loop};
ghost use Rattle.rules.specs.Scope.{BoundWithin, ExprWithin, Within};
ghost use Rattle.rules.specs.Step.{bound_value};
ghost use Rattle.rules.specs.Store.{up_to};
ghost use Rattle.record.specs.declared.Header.{Header};
ghost use Rattle.record.specs.Header.{contents_at};
ghost use Rattle.record.specs.Program.{block_size};
ghost use Rattle.record.specs.Holding.{ProgramIn};
ghost use Rattle.record.specs.Kind.{kind_named};
ghost use Rattle.record.specs.declared.kind.Kind.TheVariants.{Literal};
ghost use Rattle.buffer.specs.LittleEndian.{val};
ghost use Rattle.buffer.specs.Slice.{part};
ghost use Rattle.place.specs.Path.{opens_at, path};
ghost use Rattle.place.specs.ProgramView.{BlockAt};
ghost use Rattle.plan.specs.Plan.{plan_turn};
ghost use Rattle.command.specs.Plan.{leaf_value, plan_assign, plan_of};

use plan::{Place, Plan};
use record::kind::Kind;

// Whether a block with commands in it begins at p.
fn opens(buf: &[u8], p: usize) -> bool
    requires { p + 4 ≤ length buf.now }
    ensures { result ≡ opens_at buf.now p }
{
    match Kind::read(buf, p + 2) {
        Kind::Block => 4 < buffer::get_u16(buf, p),
        _ => false,
    }
}

// How many blocks are open around the command that the rules act on. The commands start at `start`.
pub fn open_levels(buf: &[u8], start: usize) -> usize
    requires { (P : Block) × (BlockAt buf.now start P × (0 < block_size P)) }
    ensures { (P : Block) → BlockAt buf.now start P → 0 < block_size P → result ≡ length (path P) }
{
    plan::levels(start, |p| opens(buf, p))
}

// A record of one number: an expression or a bound.
#[derive(Clone, Copy)]
pub struct Leaf {
    pub kind: Kind,
    pub number: u32,
}

impl Leaf {
    // What is read of the one at a place.
    pub fn read(buf: &[u8], at: usize) -> Leaf
        requires { at + 8 ≤ length buf.now }
        ensures kind { result.kind ≡ kind_named (val (part buf.now (at + 2) 2)) }
        ensures number { result.number ≡ val (part buf.now (at + 4) 4) }
    {
        Leaf {
            kind: Kind::read(buf, at + 2),
            number: buffer::get_u32(buf, at + 4),
        }
    }

    // The value that it names: a literal's number, or the value of the variable with this number.
    #[tactic(auto, unfolding(crate::specs::Plan::leaf_value))]
    pub fn value(self, store: &[u32]) -> u32
        requires { (self.kind ≡ Literal → ⊥) → Within (length store.now) self.number }
        ensures { result ≡ leaf_value self.kind self.number store.now }
    {
        match self.kind {
            Kind::Literal => self.number,
            _ => run::value::value_of(store, self.number),
        }
    }
}

// The plan of the assignment at a place.
fn look_assign(buf: &[u8], place: Place, store: &[u32], largest: u32) -> Plan
    requires { (x : ℕ) × ((e : Expr) × ((r : Block) × (BlockAt buf.now place.at (assign x e r) × ExprWithin (length store.now) e))) }
    ensures { (x : ℕ) (e : Expr) (r : Block) → BlockAt buf.now place.at (assign x e r) → ExprWithin (length store.now) e → result ≡ plan_assign (up_to largest) place.levels place.at x e store.now }
{
    let variable = buffer::get_u32(buf, place.at + 4);
    let expression = Leaf::read(buf, place.at + 8);
    let value = expression.value(store);
    match expression.kind {
        Kind::PlusOne => place.raise(variable, value, 0, largest),
        Kind::MinusOne => place.evaluate(variable, run::value::minus_one(value), 0),
        _ => place.bind(variable, value),
    }
}

// The plan of the loop at a place.
fn look_loop(buf: &[u8], place: Place, store: &[u32]) -> Plan
    requires { (x : ℕ) × ((b : Bound) × ((c : Block) × ((r : Block) × (BlockAt buf.now place.at (loop x b c r) × BoundWithin (length store.now) b)))) }
    ensures { (x : ℕ) (b : Bound) (c r : Block) → BlockAt buf.now place.at (loop x b c r) → BoundWithin (length store.now) b → result ≡ plan_turn place.levels place.at x (block_size c) (bound_value store.now b) }
{
    let variable = buffer::get_u32(buf, place.at + 4);
    let bound = Leaf::read(buf, place.at + 8);
    let body = buffer::get_u16(buf, place.at) - 20;
    let value = bound.value(store);
    place.turn(variable, value, body)
}

// The plan of the next step of a program whose contents start at `contents`, with values up to `largest`. Its commands stand
// behind the head of its block.
// Kept: contents and largest and no header, since the promise is of every largest value (`plan_of contents (up_to largest)`).
pub fn look(buf: &[u8], used: usize, store: &[u32], contents: usize, largest: u32) -> Plan
    requires { (h : Header) × ((P : Block) × (ProgramIn h P buf.now used × ((length buf.now ≤ 16384) × ((length store.now ≡ h.k) × (contents_at h ≡ contents))))) }
    ensures { (h : Header) (P : Block) → ProgramIn h P buf.now used → length store.now ≡ h.k → contents_at h ≡ contents → result ≡ plan_of contents (up_to largest) P store.now }
{
    let start = contents + 4;
    if used == start {
        let place = Place {
            at: start,
            levels: 0,
        };
        return place.finished();
    }
    let levels = open_levels(buf, start);
    let place = Place {
        at: start + 4 * levels,
        levels,
    };
    match Kind::read(buf, place.at + 2) {
        Kind::Assignment => look_assign(buf, place, store, largest),
        Kind::Loop => look_loop(buf, place, store),
        _ => place.leave(4),
    }
}
