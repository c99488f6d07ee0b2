// The words of a state as every one is handed out (02 C-14): 0 for what it does not hold, 1 for a mark that is only not 0.
#![tactic(auto)]

ghost use Rattle.std.specs.Prelude.{◌≡◌, ◌+◌, ◌≤◌, length};
ghost use Rattle.counting.specs.Held.{canonical, canonical_held};
ghost use Rattle.counting.specs.StateWords.{held_from, packed, unpacked};
ghost use Rattle.canonical.specs.Canonical.{head_canonical, held_of};

use state_words::{EntryWords, WORDS, entry, put_entry};

// How many entries words have room for.
const ENTRIES: usize = 31;

// How many entries are held: those before the first that is held open as 0.
pub fn open_count(words: &[u32; WORDS]) -> usize
    ensures { result ≡ length (held_from words.now 3 31) }
{
    (0..ENTRIES)
        .position(|j| words[3 + 6 * j] == 0)
        .unwrap_or(ENTRIES)
}

// The mark of a waiting sum; 0 for a sum that does not wait.
#[tactic(auto, unfolding(crate::specs::Canonical::head_canonical, crate::specs::Canonical::head_by))]
fn canonical_head(words: &mut [u32; WORDS])
    ensures { words.new ≡ head_canonical words.old }
{
    if words[1] == 0 {
        words[2] = 0;
    } else {
        words[1] = 1;
    }
}

// An entry: a block has no counts, and a loop that runs is marked so by 1.
#[tactic(auto, unfolding(counting::specs::Held::canonical_held, counting::specs::Held::canonical_as, counting::specs::Held::held_block, counting::specs::Held::mark))]
fn canonical_entry(entry: EntryWords) -> EntryWords
    ensures { held_of result ≡ canonical_held (held_of entry) }
{
    if entry.what == 1 {
        EntryWords::block(entry.at, entry.progress)
    } else {
        EntryWords {
            running: u32::from(entry.running != 0),
            ..entry
        }
    }
}

// All of them: the entries that are held, and zeros behind them.
pub fn make_canonical(words: &mut [u32; WORDS])
    ensures { words.new ≡ packed (canonical (unpacked words.old)) }
{
    let n = open_count(words);
    canonical_head(words);
    for j in 0..n {
        let held = canonical_entry(entry(words, j));
        put_entry(words, 3 + 6 * j, held);
    }
    words[3 + 6 * n..].fill(0);
}
