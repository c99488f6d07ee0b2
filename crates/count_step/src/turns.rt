// Edits of the last entry of a loop, behind n others, and the tests of the words.
ghost use Rattle.std.specs.Prelude.{◌≡◌, suc, ◌+◌, ◌*◌, ◌≤◌, ◌<◌, ◌^◌, get_or, length, set};
ghost use Rattle.rules.specs.Scope.{Within};
ghost use Rattle.rules.specs.Store.{update};
ghost use Rattle.state_words.specs.Entry.{place_put};
ghost use Rattle.count_step.specs.Words.{again_words, body_words, first_words, next_words, shut_words, unrolled_words};

use state_words::{IN_PLAY, WORDS, entry, in_loop, place_word, put_place};

// Whether the last of n entries is that of a loop at no place in its body: its word for the place is 0 or 1 then.
pub fn is_shut(words: &[u32; WORDS], n: usize) -> bool
    requires { n ≤ 31 }
    ensures { result ≡ shut_words words.now n }
{
    in_loop(words, n) && words[place_word(n)] < 2
}

// Whether the entry behind n is that of a loop with a turn still to come.
pub fn turns_again(words: &[u32; WORDS], n: usize) -> bool
    requires { n < 31 }
    ensures { result ≡ again_words words.now n }
{
    let last = entry(words, n);
    last.what == IN_PLAY && last.reached != last.top
}

// A loop unrolled once more.
pub fn unroll(words: &mut [u32; WORDS], n: usize)
    requires { n < 31 }
    ensures { words.new ≡ unrolled_words words.old n }
{
    let reached = words[3 + 6 * n + 3];
    if reached == 0 {
        words[3 + 6 * n + 4] = 1;
    } else {
        words[3 + 6 * n + 3] = reached - 1;
    }
}

// The first turn, whose index is still to be stored.
#[tactic(auto, unfolding(crate::specs::Words::first_words))]
pub fn first_turn(words: &mut [u32; WORDS], n: usize)
    requires { n < 31 }
    ensures { words.new ≡ first_words words.old n }
{
    words[3 + 6 * n + 3] = 1;
    words[3 + 6 * n + 5] = 1;
}

// The body from p on: a place in it is held plus 2.
pub fn enter_body(words: &mut [u32; WORDS], n: usize, p: usize)
    requires { (n < 31) × (p < 65536) }
    ensures { words.new ≡ body_words words.old n p }
{
    words[3 + 6 * n + 5] = (p + 2) as u32;
}

// The next turn, whose index is still to be stored.
pub fn next_turn(words: &mut [u32; WORDS], n: usize)
    requires { (n < 31) × (suc (get_or words.old (3 + 6 * n + 3) 0) < 2 ^ 32) }
    ensures { words.new ≡ next_words words.old n }
{
    words[3 + 6 * n + 3] += 1;
    words[3 + 6 * n + 5] = 1;
}

// A value is stored, and the place goes behind its assignment, which stands at i; n are open.
pub fn store_and_pass(
    words: &mut [u32; WORDS],
    n: usize,
    store: &mut [u32],
    i: usize,
    variable: u32,
    value: u32,
)
    requires { (n ≤ 31) × (i ≤ 16384) × Within (length store.old) variable }
    ensures { (words.new ≡ place_put words.old n (i + 16)) × (store.new ≡ update store.old variable value) }
{
    put_place(words, n, i + 16);
    run::value::set_value(store, variable, value);
}

// A sum waits.
pub fn wait(words: &mut [u32; WORDS], sum: u32)
    ensures { words.new ≡ set (set words.old 1 1) 2 sum }
{
    words[1] = 1;
    words[2] = sum;
}

// None waits.
pub fn done_waiting(words: &mut [u32; WORDS])
    ensures { words.new ≡ set (set words.old 1 0) 2 0 }
{
    words[1] = 0;
    words[2] = 0;
}
