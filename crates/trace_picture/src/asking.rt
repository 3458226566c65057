ghost use Rattle.std.specs.Prelude.{◌≡◌, ◌≤◌, ◌<◌, IfSome};
ghost use Rattle.sprite_words.specs.Words.{spelled};
ghost use Rattle.trace_picture.specs.Words.{asked_of, file_of, file_with, range_of, range_with, two_words};

use sprite_ids::{FileId, Kernel};
use text_lines::{number, place_of};

/// What the program's words ask for (this project).
#[derive(Clone, Copy)]
pub(crate) struct Asked {
    /// The numbers of the first and the last record that are shown; all are where there are none.
    pub(crate) range: Option<(u64, u64)>,
    /// A file whose caching is shown.
    pub(crate) file: Option<FileId>,
}

/// What the words ask for: nothing, or `FIRST LAST`, and behind it nothing, or `follow SERVER:NUMBER`. None exactly where they are others.
pub(crate) fn asked_of(words: &[String]) -> Option<Asked>
    ensures { result ≡ asked_of (spelled words.now) }
{
    match words {
        [] => Some(Asked {
            range: None,
            file: None,
        }),
        [_] => None,
        [first, second] => two_words(first.as_bytes(), second.as_bytes()),
        [_, _, _] => None,
        [first, last, word, file] => {
            if word.as_bytes() != b"follow".as_slice() {
                return None;
            }
            let range = range_of(first.as_bytes(), last.as_bytes())?;
            let file = file_of(file.as_bytes())?;
            Some(Asked {
                range: Some(range),
                file: Some(file),
            })
        }
        [_, _, _, _, _, ..] => None,
    }
}

// What two words ask for: a file to follow, or the first and the last record.
fn two_words(first: &[u8], second: &[u8]) -> Option<Asked>
    ensures { result ≡ two_words first.now second.now }
{
    if first == b"follow".as_slice() {
        let file = file_of(second)?;
        return Some(Asked {
            range: None,
            file: Some(file),
        });
    }
    let range = range_of(first, second)?;
    Some(Asked {
        range: Some(range),
        file: None,
    })
}

// The first and the last record, counted from 1.
fn range_of(first: &[u8], last: &[u8]) -> Option<(u64, u64)>
    ensures { result ≡ range_of first.now last.now }
{
    range_with(number(first)?, number(last)?)
}

fn range_with(first: u64, last: u64) -> Option<(u64, u64)>
    ensures { result ≡ range_with first last }
{
    if 1 <= first && first <= last {
        Some((first, last))
    } else {
        None
    }
}

// The file of the server of that number and of its own number, with a colon between.
fn file_of(word: &[u8]) -> Option<FileId>
    ensures { result ≡ file_of word.now }
{
    let colon = place_of(word, b':');
    if word.len() <= colon {
        return None;
    }
    file_with(number(&word[..colon])?, number(&word[colon + 1..])?)
}

fn file_with(server: u64, number: u64) -> Option<FileId>
    ensures { result ≡ file_with server number }
{
    if server < 1 || 16 < server || 4_294_967_295 < number {
        return None;
    }
    Some(FileId {
        server: Kernel::new(server as u8)?,
        number: number as u32,
    })
}
