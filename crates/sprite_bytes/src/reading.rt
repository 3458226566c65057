ghost use Rattle.std.specs.Prelude.{◌≤◌, IfOk, IfErr, length};
ghost use Rattle.std.specs.Io.KnownBytes.{Consumes, IsAtEnd};
ghost use Rattle.sprite_bytes.specs.Ends.{IsByCount, IsByLength};

use crate::read_end::ReadEnd;
use crate::source::Source;
use std::alloc::Global;

/// How many bytes one read asks for at most.
const PIECE: usize = 1024;

/// Reads all that is left in the source, at most `limit` bytes (this project).
///
/// It never asks for more than what is wanting to `limit + 1` bytes: the one more tells whether the source ends there.
/// Each read but the last gives at least one byte, so it ends after at most `limit + 1` reads. `TooLong` comes exactly
/// where `limit + 1` bytes came, and `Fault` at the first read that fails. Where the answer isn't Ok, bytes may have
/// been taken from the source, and they are lost.
pub fn read_all<S: Source>(alloc: Global, source: &mut S, limit: usize) -> Result<Vec<u8>, ReadEnd>
    ensures whole { IfOk result (λ all. Consumes (S.left source.old) (S.left source.new) all.items) }
    ensures end { IfOk result (λ _. IsAtEnd (S.left source.new)) }
    ensures short { IfOk result (λ all. length all.items ≤ limit) }
    ensures later { S.faults source.old ≤ S.faults source.new }
    ensures fault { IfErr result (IsByCount (S.faults source.old) (S.faults source.new)) }
    ensures long { IfErr result (IsByLength (S.left source.old) (S.left source.new) limit) }
{
    let before = source.faults();
    let mut buffer = [0; PIECE];
    let mut all = Vec::new(alloc);
    'reads: loop {
        let room = limit - all.len();
        let wanted = PIECE.min(room.saturating_add(1));
        let Ok(count) = source.read(&mut buffer[..wanted]) else {
            let now = source.faults();
            return Err(ReadEnd::Fault { before, now });
        };
        if count == 0 {
            return Ok(all);
        }
        if room < count {
            return Err(ReadEnd::TooLong);
        }
        all.extend_from_slice(&buffer[..count])?;
    }
}
