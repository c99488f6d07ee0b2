// Whether a value that words hold is above the largest (02 C-17, refusal 16, of a state): the top count of an entry that is held open as
// a loop, or the sum where one waits. A block has no top count: the word in its place is not looked at.
ghost use Rattle.std.specs.Prelude.{◌≡◌, not, [], ◌+◌, ◌≤◌, get_or, length};
ghost use Rattle.rules.specs.Literals.{small_values};
ghost use Rattle.rules.specs.Store.{up_to};
ghost use Rattle.counting.specs.SmallState.{counts_of, sum_of, top_as};
ghost use Rattle.counting.specs.StateWords.{unpacked};

use canonical::open_count;
use state_words::{EntryWords, WORDS, entry};

// The top count of an entry.
fn top_above(entry: EntryWords, largest: u32) -> bool
    ensures { result ≡ not (small_values (up_to largest) (top_as entry.what entry.top [])) }
{
    entry.what == 2 && largest < entry.top
}

// The sum.
fn sum_above(words: &[u32; WORDS], largest: u32) -> bool
    ensures { result ≡ not (small_values (up_to largest) (sum_of (get_or words.now 1 0) (get_or words.now 2 0))) }
{
    words[1] != 0 && largest < words[2]
}

// All of them.
pub fn counts_above(words: &[u32; WORDS], largest: u32) -> bool
    ensures { result ≡ not (small_values (up_to largest) (counts_of (unpacked words.now))) }
{
    (0..open_count(words)).any(|j| top_above(entry(words, j), largest)) || sum_above(words, largest)
}
