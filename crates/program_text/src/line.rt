ghost use Rattle.std.specs.Prelude.{◌≡◌, IfOk};
ghost use Rattle.program_text.specs.Words.{words_of};
ghost use Rattle.program_text.specs.Lines.{line_of, is_comment, label_line, pages_of, quoted_of, text_of};

use super::label::label_in;
use super::names::Name;
use super::quoted::quoted;
use super::step::{Step, read_step};
use super::words::{is_blank, next_word, skip_spaces};
use process_machine::{PageCount, Text};
use sprite_ids::{Bytes, NoMemory};
use std::alloc::Global;
use text_lines::number;

/// A line of a program.
#[derive(Debug, Drop)]
pub enum Line {
    /// Spaces alone, or a comment.
    Blank,
    /// The place of the next instruction, by a name.
    Label(Name),
    /// How many pages the program's images have.
    Pages(PageCount),
    /// What a fresh image holds.
    Data(Text),
    /// An instruction.
    Code(Step),
}

/// What a line of a program is, by its own bytes alone; None exactly where it is no line of one. `sys rexec` is one from
/// version 2 on. The one error is want of memory.
pub fn read_line(alloc: Global, version: u8, bytes: &[u8]) -> Result<Option<Line>, NoMemory>
    ensures { IfOk result (λ read. read ≡ line_of version bytes.now) }
{
    let Some((word, rest)) = next_word(bytes) else {
        return Ok(Some(Line::Blank));
    };
    if is_comment(word) {
        return Ok(Some(Line::Blank));
    }
    if word == b"text".as_slice() {
        return Ok(read_text(alloc, rest)?.map(Line::Data));
    }
    if word == b"pages".as_slice() {
        return Ok(read_pages(rest).map(Line::Pages));
    }
    if is_blank(rest) {
        return read_label(alloc, word);
    }
    Ok(read_step(alloc, version, word, rest)?.map(Line::Code))
}

/// Whether a line that begins with this word is a comment.
fn is_comment(word: &[u8]) -> bool
    ensures { result ≡ is_comment word.now }
{
    match word.first() {
        Some(byte) => *byte == b'#',
        None => false,
    }
}

/// A line of one word, which defines a label.
fn read_label(alloc: Global, word: &[u8]) -> Result<Option<Line>, NoMemory>
    ensures { IfOk result (λ read. read ≡ label_line word.now) }
{
    let Some(label) = label_in(word) else {
        return Ok(None);
    };
    Ok(Some(Line::Label(Name::of_slice(alloc, label)?)))
}

/// What stands behind the word `pages`: a number from 1 to 8.
fn read_pages(rest: &[u8]) -> Option<PageCount>
    ensures { result ≡ pages_of (words_of rest.now) }
{
    let (word, rest) = next_word(rest)?;
    let count = u8::try_from(number(word)?).ok()?;
    if is_blank(rest) {
        PageCount::new(count)
    } else {
        None
    }
}

/// What stands behind the word `text`: an address and a text in double quotes. The one error is want of memory.
fn read_text(alloc: Global, rest: &[u8]) -> Result<Option<Text>, NoMemory>
    ensures { IfOk result (λ read. read ≡ text_of rest.now) }
{
    let Some((word, rest)) = next_word(rest) else {
        return Ok(None);
    };
    let Some(address) = number(word) else {
        return Ok(None);
    };
    let Some(bytes) = read_quoted(alloc, skip_spaces(rest))? else {
        return Ok(None);
    };
    Ok(Some(Text { address, bytes }))
}

/// The bytes that a text in double quotes writes; None exactly where these bytes are no such text with at most spaces
/// behind it. The one error is want of memory.
fn read_quoted(alloc: Global, text: &[u8]) -> Result<Option<Bytes>, NoMemory>
    ensures { IfOk result (λ read. read ≡ quoted_of text.now) }
{
    let Some((first, inside)) = text.split_first() else {
        return Ok(None);
    };
    if *first != b'"' {
        return Ok(None);
    }
    let Some((bytes, behind)) = quoted(alloc, inside)? else {
        return Ok(None);
    };
    if is_blank(behind) {
        Ok(Some(bytes))
    } else {
        Ok(None)
    }
}
