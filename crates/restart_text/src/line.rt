ghost use Rattle.std.specs.Prelude.{◌≡◌, ◌≤◌, IfOk, IfSome, length, option_map};
ghost use Rattle.file_views.specs.declared.FileStep.TheVariants.{Delivering, Expiring};
ghost use Rattle.restart_views.specs.declared.RestartStep.TheVariants.{Claim};
ghost use Rattle.text_rows.specs.Words.{number_in};
ghost use Rattle.restart_text.specs.FileLines.{most_number, use_of, fits, opening, closing, reading, writing, appending, sending_back, file_step_by, step_of, file_of};

use crate::words::{behind_two, number_in, number_of, process, quoted, stream_in, stream_of};
use file_views::FileStep;
use restart_views::RestartStep;
use sprite_ids::{BlockNo, Bytes, Mode, NoMemory};
use std::alloc::Global;
use text_rows::{kernel_in, rest_of, word_of};

const FILE_BYTES: u32 = 262_144;

const MOVED_BYTES: u32 = 16_384;

// The mode of an open, and whether it truncates.
fn use_of(word: &[u8]) -> Option<(Mode, bool)>
    ensures { result ≡ use_of word.now }
{
    if word == b"read".as_slice() {
        Some((Mode::Read, false))
    } else if word == b"write".as_slice() {
        Some((Mode::Write, false))
    } else if word == b"both".as_slice() {
        Some((Mode::Both, false))
    } else if word == b"write trunc".as_slice() {
        Some((Mode::Write, true))
    } else if word == b"both trunc".as_slice() {
        Some((Mode::Both, true))
    } else {
        None
    }
}

// Whether a call may put so many bytes there.
fn fits(from: u32, many: usize) -> bool
    ensures { result ≡ fits from many }
{
    if many > 16_384 {
        return false;
    }
    from as usize + many <= 262_144
}

fn opening(kernels: u8, line: u32, values: &[u8]) -> Option<FileStep>
    requires { kernels ≤ 15 }
    ensures { result ≡ opening kernels line values.now }
{
    let stream = stream_in(kernels, values)?;
    let (mode, truncate) = use_of(behind_two(values))?;
    Some(FileStep::Opening {
        pid: process(stream.kernel),
        number: line,
        kernel: stream.kernel,
        stream,
        mode,
        truncate,
    })
}

fn closing(kernels: u8, values: &[u8]) -> Option<FileStep>
    requires { kernels ≤ 15 }
    ensures { result ≡ closing kernels values.now }
{
    let stream = stream_of(kernels, word_of(values), rest_of(values))?;
    Some(FileStep::Closing {
        kernel: stream.kernel,
        stream,
    })
}

fn reading(kernels: u8, line: u32, values: &[u8]) -> Option<FileStep>
    requires { kernels ≤ 15 }
    ensures { result ≡ reading kernels line values.now }
{
    let stream = stream_in(kernels, values)?;
    let rest = behind_two(values);
    let from = number_in(0, FILE_BYTES, word_of(rest))?;
    let length = number_in(0, MOVED_BYTES, rest_of(rest))?;
    Some(FileStep::Reading {
        pid: process(stream.kernel),
        number: line,
        kernel: stream.kernel,
        stream,
        from,
        length,
    })
}

fn writing(
    alloc: Global,
    kernels: u8,
    line: u32,
    values: &[u8],
) -> Result<Option<FileStep>, NoMemory>
    requires { kernels ≤ 15 }
    ensures { IfOk result (λ step. step ≡ writing kernels line values.now) }
{
    let Some(stream) = stream_in(kernels, values) else {
        return Ok(None);
    };
    let rest = behind_two(values);
    let Some(from) = number_in(0, FILE_BYTES, word_of(rest)) else {
        return Ok(None);
    };
    let Some(bytes) = quoted(alloc, rest_of(rest))? else {
        return Ok(None);
    };
    if !fits(from, bytes.len()) {
        return Ok(None);
    }
    Ok(Some(FileStep::Writing {
        pid: process(stream.kernel),
        number: line,
        kernel: stream.kernel,
        stream,
        from,
        bytes,
    }))
}

fn appending(
    alloc: Global,
    kernels: u8,
    line: u32,
    values: &[u8],
) -> Result<Option<FileStep>, NoMemory>
    requires { kernels ≤ 15 }
    ensures { IfOk result (λ step. step ≡ appending kernels line values.now) }
{
    let Some(stream) = stream_in(kernels, values) else {
        return Ok(None);
    };
    let Some(bytes) = quoted(alloc, behind_two(values))? else {
        return Ok(None);
    };
    if !fits(0, bytes.len()) {
        return Ok(None);
    }
    Ok(Some(FileStep::Append {
        pid: process(stream.kernel),
        number: line,
        kernel: stream.kernel,
        stream,
        bytes,
    }))
}

fn sending_back(kernels: u8, values: &[u8]) -> Option<FileStep>
    requires { kernels ≤ 15 }
    ensures { result ≡ sending_back kernels values.now }
{
    let kernel = kernel_in(kernels, word_of(values))?;
    let number = number_in(0, 63, rest_of(values))?;
    Some(FileStep::WritingBack {
        kernel,
        block: BlockNo(u16::try_from(number).ok()?),
    })
}

fn delivering(values: &[u8]) -> Option<FileStep>
    ensures { result ≡ option_map Delivering (number_in 1 most_number values.now) }
{
    let call = number_of(values)?;
    Some(FileStep::Delivering { call })
}

fn expiring(values: &[u8]) -> Option<FileStep>
    ensures { result ≡ option_map Expiring (number_in 1 most_number values.now) }
{
    let call = number_of(values)?;
    Some(FileStep::Expiring { call })
}

fn claiming(kernels: u8, values: &[u8]) -> Option<RestartStep>
    requires { kernels ≤ 15 }
    ensures { result ≡ option_map Claim (number_in 1 kernels values.now) }
{
    let kernel = kernel_in(kernels, values)?;
    Some(RestartStep::Claim { kernel })
}

// The file step of a name and what stands behind it.
fn file_step_by(
    alloc: Global,
    kernels: u8,
    line: u32,
    name: &[u8],
    values: &[u8],
) -> Result<Option<FileStep>, NoMemory>
    requires { kernels ≤ 15 }
    ensures { IfOk result (λ step. step ≡ file_step_by kernels line name.now values.now) }
{
    if name == b"open".as_slice() {
        Ok(opening(kernels, line, values))
    } else if name == b"close".as_slice() {
        Ok(closing(kernels, values))
    } else if name == b"read".as_slice() {
        Ok(reading(kernels, line, values))
    } else if name == b"write".as_slice() {
        writing(alloc, kernels, line, values)
    } else if name == b"append".as_slice() {
        appending(alloc, kernels, line, values)
    } else if name == b"back".as_slice() {
        Ok(sending_back(kernels, values))
    } else if name == b"deliver".as_slice() {
        Ok(delivering(values))
    } else if name == b"expire".as_slice() {
        Ok(expiring(values))
    } else {
        Ok(None)
    }
}

/// The step of a line: `open K S MODE`, with ` trunc` at will where it writes, `close K S`, `read K S FROM LEN`, `write K S FROM "BYTES"`,
/// `append K S "BYTES"`, `back K BLOCK`, `deliver C`, `expire C`, `settle`, `stop` or `claim K`; None exactly where the line is none.
pub(crate) fn step_of(
    alloc: Global,
    kernels: u8,
    number: u32,
    line: &[u8],
) -> Result<Option<RestartStep>, NoMemory>
    requires { kernels ≤ 15 }
    ensures { IfOk result (λ step. step ≡ step_of kernels number line.now) }
{
    if line == b"stop".as_slice() {
        return Ok(Some(RestartStep::Stop));
    }
    if line == b"settle".as_slice() {
        return Ok(Some(RestartStep::Settle));
    }
    if word_of(line) == b"claim".as_slice() {
        return Ok(claiming(kernels, rest_of(line)));
    }
    match file_step_by(alloc, kernels, number, word_of(line), rest_of(line))? {
        Some(step) => Ok(Some(RestartStep::File { step })),
        None => Ok(None),
    }
}

/// How many kernels there are, 1 to 15, and the first bytes, at most 262,144, of the first line, `file KERNELS "BYTES"`; None exactly
/// where the line isn't of that form.
pub(crate) fn file_of(alloc: Global, line: &[u8]) -> Result<Option<(u8, Bytes)>, NoMemory>
    ensures file { IfOk result (λ file. file ≡ file_of line.now) }
    ensures within { IfOk result (λ file. IfSome file (λ pair. (1 ≤ pair.0) × (pair.0 ≤ 15) × (length pair.1 ≤ 262144))) }
{
    if word_of(line) != b"file".as_slice() {
        return Ok(None);
    }
    let Some(kernels) = kernel_in(15, word_of(rest_of(line))) else {
        return Ok(None);
    };
    let Some(bytes) = quoted(alloc, behind_two(line))? else {
        return Ok(None);
    };
    if bytes.len() > 262_144 {
        return Ok(None);
    }
    Ok(Some((kernels.number(), bytes)))
}
