// The ways of a step, by what stands innermost. n entries are open.
ghost use Rattle.std.specs.Prelude.{◌≡◌, ◌+◌, ◌≤◌, ℕ, List, length};
ghost use Rattle.record.specs.Kind.{kind_named};
ghost use Rattle.state_words.specs.Numbers.{kind_at, number_at};
ghost use Rattle.count_step.specs.Makes.{IsAssign, IsEnd, IsLoop, IsShut, IsSummed, MakesAs, StandsOn};

use crate::turns::{
    done_waiting, enter_body, first_turn, next_turn, store_and_pass, turns_again, unroll, wait,
};
use command::Leaf;
use record::kind::Kind;
use state_words::program::Program;
use state_words::{EntryWords, WORDS, entry, place, pop, push};

// The expression of the assignment, or the bound of the loop, at a place.
fn leaf_at(program: Program, i: usize) -> Leaf
    requires { program.start + i + 16 ≤ length program.bytes.now }
    ensures kind { result.kind ≡ kind_named (kind_at program.entry.start program.entry.bytes.now i) }
    ensures number { result.number ≡ number_at program.entry.start program.entry.bytes.now i }
{
    Leaf {
        kind: program.kind_at(i),
        number: program.number_at(i),
    }
}

// An assignment at the place: a literal or a variable is stored, a plus one or minus one waits.
pub fn step_assign(program: Program, words: &mut [u32; WORDS], n: usize, store: &mut [u32])
    requires { StandsOn program.start n IsAssign program.bytes.now words.old store.old }
    ensures { MakesAs program.entry.start n IsAssign program.entry.bytes.now words.old store.old words.new store.new n }
{
    let i = place(words, n);
    let variable = program.variable_at(i);
    let expression = leaf_at(program, i);
    let value = expression.value(store);
    match expression.kind {
        Kind::PlusOne => wait(words, value + 1),
        Kind::MinusOne => wait(words, run::value::minus_one(value)),
        _ => store_and_pass(words, n, store, i, variable, value),
    }
}

// A sum that waits, for the assignment at the place: it is stored.
pub fn step_sum(program: Program, words: &mut [u32; WORDS], n: usize, store: &mut [u32])
    requires { StandsOn program.start n IsSummed program.bytes.now words.old store.old }
    ensures { MakesAs program.entry.start n IsSummed program.entry.bytes.now words.old store.old words.new store.new n }
{
    let i = place(words, n);
    let variable = program.variable_at(i);
    let sum = words[2];
    done_waiting(words);
    store_and_pass(words, n, store, i, variable, sum);
}

// A loop at the place comes into play: running at 0, or unrolling. The result is how many are open then, as of the next two.
pub fn step_enter(program: Program, words: &mut [u32; WORDS], n: usize, store: &[u32]) -> usize
    requires { StandsOn program.start n IsLoop program.bytes.now words.old store.now }
    ensures { MakesAs program.entry.start n IsLoop program.entry.bytes.now words.old store.now words.new store.now result }
{
    let i = place(words, n);
    let value = leaf_at(program, i).value(store);
    push(words, n, EntryWords::in_play(i as u32, value));
    n + 1
}

// The end of a block: its entry goes, or its loop's next turn comes.
pub fn step_close(program: Program, words: &mut [u32; WORDS], n: usize) -> usize
    requires { (store : List ℕ) × StandsOn program.start n IsEnd program.bytes.now words.old store }
    ensures { (store : List ℕ) → MakesAs program.entry.start n IsEnd program.entry.bytes.now words.old store words.new store result }
{
    let m = n - 1;
    if turns_again(words, m) {
        next_turn(words, m);
        return n;
    }
    let at = entry(words, m).at as usize;
    pop(words, m, at + program.size_at(at));
    m
}

// A loop at no place in its body: it unrolls, begins its first turn, goes, or stores its index.
pub fn step_shut(program: Program, words: &mut [u32; WORDS], n: usize, store: &mut [u32]) -> usize
    requires { StandsOn program.start n IsShut program.bytes.now words.old store.old }
    ensures { MakesAs program.entry.start n IsShut program.entry.bytes.now words.old store.old words.new store.new result }
{
    let m = n - 1;
    let last = entry(words, m);
    if last.running == 0 {
        unroll(words, m);
        return n;
    }
    let at = last.at as usize;
    if last.progress != 0 {
        enter_body(words, m, at + 20);
        run::value::set_value(store, program.variable_at(at), last.reached);
        return n;
    }
    if last.top == 0 {
        pop(words, m, at + program.size_at(at));
        return m;
    }
    first_turn(words, m);
    n
}
