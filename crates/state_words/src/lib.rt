// Reads and edits of the 189 words of a state (02 C-14), of which every contract is one equation over all the words. How many
// entries are open is no word: the caller knows it, and hands it over as n.
#![tactic(auto)]

pub mod program;

ghost use Rattle.std.specs.Prelude.{◌≡◌, ◌+◌, ◌*◌, ◌≤◌, ◌<◌, ◌^◌, get_or, length};
ghost use Rattle.counting.specs.Frames.{place_word};
ghost use Rattle.state_words.specs.Entry.{block_entry, entry_at, entry_in_play, entry_popped, entry_put, last_loop, mark_by, place_in, place_put, pushed};

// How many words a state has.
pub const WORDS: usize = 189;

// What an entry is held open as: none, a block, or a loop in play.
// Kept: numbers, as C lends them in a word; `opening_of` (counting's specs/Held.antt) says what each stands for.
pub const NONE: u32 = 0;

pub const OPEN_BLOCK: u32 = 1;

pub const IN_PLAY: u32 = 2;

// A word as an index or a place.
pub fn word(words: &[u32], i: usize) -> usize
    requires { i < length words.now }
    ensures { (result ≡ get_or words.now i 0) × (result < 2 ^ 32) }
{
    words[i] as usize
}

// The word that holds the place in the innermost block, where n entries hold a place.
pub fn place_word(n: usize) -> usize
    requires { n ≤ 31 }
    ensures { result ≡ place_word n }
{
    if n == 0 { 0 } else { 6 * n + 2 }
}

// Whether the last of n entries is that of a loop.
pub fn in_loop(words: &[u32; WORDS], n: usize) -> bool
    requires { n ≤ 31 }
    ensures { result ≡ last_loop words.now n }
{
    n != 0 && words[3 + 6 * (n - 1)] == IN_PLAY
}

// The place in the innermost block, where n entries hold a place: a loop's entry holds it plus 2.
pub fn place(words: &[u32; WORDS], n: usize) -> usize
    requires { (n ≤ 31) × (mark_by (last_loop words.now n) 0 ≤ get_or words.now (place_word n) 0) }
    ensures { result ≡ place_in words.now n }
{
    let mark = word(words, place_word(n));
    if in_loop(words, n) { mark - 2 } else { mark }
}

// Another place there.
pub fn put_place(words: &mut [u32; WORDS], n: usize, p: usize)
    requires { (n ≤ 31) × (p < 65536) }
    ensures { words.new ≡ place_put words.old n p }
{
    let w = place_word(n);
    if in_loop(words, n) {
        words[w] = (p + 2) as u32;
    } else {
        words[w] = p as u32;
    }
}

// The six words of an entry. All 0 they hold none.
#[derive(Clone, Copy, Default)]
pub struct EntryWords {
    pub what: u32,
    pub at: u32,
    pub top: u32,
    pub reached: u32,
    pub running: u32,
    pub progress: u32,
}

impl EntryWords {
    // The entry of a block that is open at `at`, at the place `progress` inside.
    pub fn block(at: u32, progress: u32) -> EntryWords
        ensures { result ≡ block_entry at progress }
    {
        EntryWords {
            what: OPEN_BLOCK,
            at,
            progress,
            ..EntryWords::default()
        }
    }

    // The entry of a loop that comes into play at `at` with so many turns: it unrolls, and with none it runs.
    pub fn in_play(at: u32, turns: u32) -> EntryWords
        ensures { result ≡ entry_in_play at turns }
    {
        if turns == 0 {
            return EntryWords {
                what: IN_PLAY,
                at,
                top: 0,
                reached: 0,
                running: 1,
                progress: 0,
            };
        }
        EntryWords {
            what: IN_PLAY,
            at,
            top: turns,
            reached: turns - 1,
            running: 0,
            progress: 0,
        }
    }
}

// The entry behind n others.
pub fn entry(words: &[u32; WORDS], n: usize) -> EntryWords
    requires { n < 31 }
    ensures { result ≡ entry_at words.now n }
{
    let i = 3 + 6 * n;
    EntryWords {
        what: words[i],
        at: words[i + 1],
        top: words[i + 2],
        reached: words[i + 3],
        running: words[i + 4],
        progress: words[i + 5],
    }
}

// They are put from word i on.
#[tactic(auto, unfolding(crate::specs::Entry::entry_put))]
pub fn put_entry(words: &mut [u32], i: usize, entry: EntryWords)
    requires { i + 6 ≤ length words.old }
    ensures { words.new ≡ entry_put words.old i entry.what entry.at entry.top entry.reached entry.running entry.progress }
{
    words[i] = entry.what;
    words[i + 1] = entry.at;
    words[i + 2] = entry.top;
    words[i + 3] = entry.reached;
    words[i + 4] = entry.running;
    words[i + 5] = entry.progress;
}

// An entry behind n others.
#[tactic(auto, unfolding(crate::specs::Entry::entry_pushed))]
pub fn push(words: &mut [u32; WORDS], n: usize, entry: EntryWords)
    requires { n < 31 }
    ensures { words.new ≡ pushed words.old n entry }
{
    put_entry(words, 3 + 6 * n, entry);
}

// The entry behind n taken away, and p for the place where it stood.
#[tactic(auto, unfolding(crate::specs::Entry::entry_popped))]
pub fn pop(words: &mut [u32; WORDS], n: usize, p: usize)
    requires { (n < 31) × (p < 65536) }
    ensures { words.new ≡ entry_popped words.old n p }
{
    put_entry(words, 3 + 6 * n, EntryWords::default());
    put_place(words, n, p);
}
