ghost use Rattle.std.specs.Prelude.{◌≡◌, ◌≤◌, IfOk, IfErr, Ok};
ghost use Rattle.std.specs.List.{AllByRecursion};
ghost use Rattle.host_lending.specs.Lending.{IsWithin};
ghost use Rattle.text_lines.specs.Lines.{lines_of};
ghost use Rattle.text_rows.specs.Rows.{IsBadAt};
ghost use Rattle.lend_text.specs.Bodies.{answer_text, events_read, TellsLine};

use crate::event::{event_of, hosts_of};
use crate::printing::answers_text;
use host_lending::{LendEvent, run};
use std::alloc::Global;
use text_lines::first_line;
use text_rows::LineError;

/// The answers to the events of a text, one a line (this project).
///
/// The first line is `hosts N`, with N from 1 to 16; each other one is `idle H`, `owner H`, `borrow B`, `return B H` or
/// `leave B`, with H and B from 1 to N. The answers are `noted`, `revoked B`, `lent H`, `moved H B`, `no host`, `returned`,
/// `not held` and `left N`. `Line` tells the first line, counted from 1, that isn't of its form; a text without a line has
/// none of the first form.
pub fn lend_text(alloc: Global, text: &[u8]) -> Result<Vec<u8>, LineError>
    ensures ok { IfOk result (λ answers. answer_text text.now ≡ Ok answers.items) }
    ensures err { IfErr result (TellsLine text.now) }
{
    if text.is_empty() {
        return Err(LineError::Line(1));
    }
    let (first, rest) = first_line(text);
    let Some(hosts) = hosts_of(first) else {
        return Err(LineError::Line(1));
    };
    let events = read_events(alloc, hosts, rest)?;
    let answers = run(alloc, events.as_slice(), hosts)?;
    let printed = answers_text(alloc, answers.as_slice())?;
    Ok(printed)
}

// The events of the lines behind the first.
fn read_events(alloc: Global, hosts: u8, text: &[u8]) -> Result<Vec<LendEvent>, LineError>
    requires { hosts ≤ 16 }
    ensures ok { IfOk result (λ events. events_read hosts 2 (lines_of text.now) ≡ Ok events.items) }
    ensures within { IfOk result (λ events. AllByRecursion (IsWithin hosts) events.items) }
    ensures err { IfErr result (IsBadAt (events_read hosts 2 (lines_of text.now))) }
{
    let mut events = Vec::new(alloc);
    let mut rest = text;
    let mut number = 2;
    while !rest.is_empty() {
        let (line, behind) = first_line(rest);
        let Some(event) = event_of(hosts, line) else {
            return Err(LineError::Line(number));
        };
        events.push(event)?;
        number += 1;
        rest = behind;
    }
    Ok(events)
}
