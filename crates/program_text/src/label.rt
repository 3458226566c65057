ghost use Rattle.std.specs.Prelude.{◌≡◌, ◌||◌, List, ℕ, IfOk, OnOk};
ghost use Rattle.std.specs.Option.{option_copied};
ghost use Rattle.text_lines.specs.Lines.{lines_of};
ghost use Rattle.program_text.specs.Words.{words_of};
ghost use Rattle.program_text.specs.Labels.{is_letter, is_label_byte, is_label, label_in, label_of, is_named, defines};
ghost use Rattle.program_text.specs.Names.{has};

use super::names::{Name, Names};
use super::operand::register;
use super::words::{is_blank, next_word};
use sprite_ids::NoMemory;
use std::alloc::Global;
use text_lines::{first_line, place_of};

/// How many bytes a label may have.
const LABEL_BYTES: usize = 16;

/// Whether a byte is one of `a` to `z`.
fn is_letter(byte: u8) -> bool
    ensures { result ≡ is_letter byte }
{
    b'a' <= byte && byte <= b'z'
}

/// Whether a byte may stand in a label behind the first one.
fn is_label_byte(byte: u8) -> bool
    ensures { result ≡ is_label_byte byte }
{
    is_letter(byte) || (b'0' <= byte && byte <= b'9') || byte == b'_'
}

/// Whether the bytes are a label: 1 to 16 of `a` to `z`, `0` to `9` and `_`, the first a letter, and no register's name.
fn is_label(name: &[u8]) -> bool
    ensures { result ≡ is_label name.now }
{
    let Some((first, rest)) = name.split_first() else {
        return false;
    };
    if !is_letter(*first) || rest.len() >= LABEL_BYTES || register(name).is_some() {
        return false;
    }
    for byte in rest {
        if !is_label_byte(*byte) {
            return false;
        }
    }
    true
}

/// The label that the word defines: the word is that label and a colon. None exactly where it defines none.
pub fn label_in(word: &[u8]) -> Option<&[u8]>
    ensures { option_copied result ≡ label_in word.now }
{
    let end = place_of(word, b':');
    if end + 1 == word.len() && is_label(&word[..end]) {
        Some(&word[..end])
    } else {
        None
    }
}

/// The label that a line defines, which is its one word; None exactly where it defines none.
fn label_of(line: &[u8]) -> Option<&[u8]>
    ensures { option_copied result ≡ label_of (words_of line.now) }
{
    let (word, rest) = next_word(line)?;
    if is_blank(rest) { label_in(word) } else { None }
}

/// The labels that the text's lines define. The one error is want of memory.
pub fn defined_in(alloc: Global, text: &[u8]) -> Result<Names, NoMemory>
    ensures { IfOk result (λ names. (name : List ℕ) → has names name ≡ defines (lines_of text.now) name) }
{
    let mut names = Names::new(alloc);
    let mut rest = text;
    while !rest.is_empty() {
        let (line, behind) = first_line(rest);
        note_label(alloc, &mut names, line)?;
        rest = behind;
    }
    Ok(names)
}

/// Notes the label that the line defines, where it defines one. The one error is want of memory.
fn note_label(alloc: Global, names: &mut Names, line: &[u8]) -> Result<(), NoMemory>
    ensures { OnOk result ((name : List ℕ) → has names.new name ≡ (is_named (label_of (words_of line.now)) name || has names.old name)) }
{
    match label_of(line) {
        None => Ok(()),
        Some(label) => names.note(Name::of_slice(alloc, label)?),
    }
}
