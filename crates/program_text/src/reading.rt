ghost use Rattle.std.specs.Prelude.{◌≡◌, ◌≤◌, IfOk, IfSome, length};
ghost use Rattle.program_text.specs.Names.{has};
ghost use Rattle.program_text.specs.Readings.{bytes_of, is_inside, aims, with_label, with_pages, with_text, with_step, with_line};

use super::line::Line;
use super::names::{Name, Names, Places};
use super::step::Step;
use process_machine::{PageCount, Text};
use sprite_ids::{Items, NoMemory};
use std::alloc::Global;

/// How many instructions a program may have.
const MOST_STEPS: usize = 512;

/// How many texts a program may have.
const MOST_TEXTS: usize = 64;

/// The bytes of a page.
const PAGE_BYTES: u64 = 4096;

/// The lines of a program that were read so far.
#[derive(Debug, Drop)]
pub struct Reading {
    /// What a line `pages` gave.
    pub pages: Option<PageCount>,
    pub texts: Items<Text>,
    pub steps: Items<Step>,
    pub labels: Places,
}

/// What was read with one more line; None exactly where the line may not stand there. `defined` are the labels of the
/// whole text, of which each label that is used must be one. The one error is want of memory.
pub fn add_line(reading: Reading, line: Line, defined: &Names) -> Result<Option<Reading>, NoMemory>
    requires { length reading.steps ≤ 512 }
    ensures value { IfOk result (λ read. read ≡ with_line (has defined.now) reading line) }
    ensures most { IfOk result (λ read. IfSome read (λ r. length r.steps ≤ 512)) }
{
    match line {
        Line::Blank => Ok(Some(reading)),
        Line::Label(name) => add_label(reading, name),
        Line::Pages(pages) => Ok(add_pages(reading, pages)),
        Line::Data(data) => add_text(reading, data),
        Line::Code(step) => add_step(reading, step, defined),
    }
}

/// One more label, which no line before defines.
fn add_label(mut reading: Reading, name: Name) -> Result<Option<Reading>, NoMemory>
    requires { length reading.steps ≤ 512 }
    ensures { IfOk result (λ read. read ≡ with_label reading name) }
{
    let place = reading.steps.len() as u16;
    if reading.labels.define(name, place)? {
        Ok(Some(reading))
    } else {
        Ok(None)
    }
}

/// The number of pages, which is given once at most and before all texts.
fn add_pages(mut reading: Reading, pages: PageCount) -> Option<Reading>
    ensures { result ≡ with_pages reading pages }
{
    if reading.pages.is_some() || !reading.texts.is_empty() {
        return None;
    }
    reading.pages = Some(pages);
    Some(reading)
}

/// How many bytes the pages have.
fn bytes_of(pages: Option<PageCount>) -> u64
    ensures { result ≡ bytes_of pages }
{
    match pages {
        Some(pages) => u64::from(pages.count()) * PAGE_BYTES,
        None => PAGE_BYTES,
    }
}

/// Whether a text lies inside so many bytes.
fn is_inside(text: &Text, bytes: u64) -> bool
    requires { bytes ≤ 32768 }
    ensures { result ≡ is_inside text.now bytes }
{
    let length = text.bytes.len() as u64;
    length <= bytes && text.address <= bytes - length
}

/// One more text, which lies inside the pages.
fn add_text(mut reading: Reading, text: Text) -> Result<Option<Reading>, NoMemory>
    ensures { IfOk result (λ read. read ≡ with_text reading text) }
{
    let inside = is_inside(&text, bytes_of(reading.pages));
    if reading.texts.len() >= MOST_TEXTS || !inside {
        return Ok(None);
    }
    reading.texts.push(text)?;
    Ok(Some(reading))
}

/// Whether the label that the step uses, if it uses one, is one of those that are defined.
fn is_aimed(step: &Step, defined: &Names) -> bool
    ensures { result ≡ aims (has defined.now) step.now }
{
    match step {
        Step::Plain(_) => true,
        Step::ToLabel { label, .. } => defined.has(label),
    }
}

/// One more instruction.
fn add_step(mut reading: Reading, step: Step, defined: &Names) -> Result<Option<Reading>, NoMemory>
    ensures value { IfOk result (λ read. read ≡ with_step (has defined.now) reading step) }
{
    if reading.steps.len() >= MOST_STEPS || !is_aimed(&step, defined) {
        return Ok(None);
    }
    reading.steps.push(step)?;
    Ok(Some(reading))
}
