// Which command the words of a line begin with.
ghost use Rattle.std.specs.Prelude.{◌≡◌};
ghost use Rattle.script.specs.Cursor.{Beginning, Choice};
ghost use Rattle.script.specs.Entries.{same as Entries·same};

use crate::rules::entries::{ENTRIES, entry_at};
use crate::rules::words::word_at;

// Whether two words are the same.
pub fn same(a: &[u8], b: &[u8]) -> bool
    ensures { result ≡ Entries·same a.now b.now }
{
    a == b
}

// Compares the words of a text with those of a name, one after the other; the place behind them, if the text begins with them.
// (d) Words of two texts, each as long as it is: std's `split` says little of its parts.
fn begin_with(name: &[u8], text: &[u8]) -> Option<usize>
    ensures { Beginning name.now text.now result }
{
    let mut i = 0;
    let mut at = 0;
    loop {
        let Some(n) = word_at(name, i) else {
            return Some(at);
        };
        let w = word_at(text, at)?;
        if !same(&name[n.start..n.end], &text[w.start..w.end]) {
            return None;
        }
        i = n.end;
        at = w.end;
    }
}

// An entry that a text begins with, by its place in the table, and the place in the text behind its words.
#[derive(Clone, Copy, Debug, PartialEq, Eq)]
pub struct Found {
    pub entry: usize,
    pub at: usize,
}

// Looks for the first entry that a text begins with.
pub fn find(text: &[u8]) -> Option<Found>
    ensures { Choice text.now result }
{
    // (c) `find_map` over the places was tried: its contract wasn't brought to Choice. Places, not the table: entry_at tells its rule place by place.
    for k in 0..ENTRIES {
        let begun = begin_with(entry_at(k).name.as_bytes(), text);
        if let Some(at) = begun {
            return Some(Found { entry: k, at });
        }
    }
    None
}
