ghost use Rattle.std.specs.Prelude.{◌<◌, ◌≤◌, IfErr, OnOk, length, take};
ghost use Rattle.std.specs.Io.KnownBytes.{Appends};
ghost use Rattle.sprite_bytes.specs.Counts.{IsFault};

use crate::sink::Sink;
use crate::write_end::WriteEnd;

/// Writes all the bytes to the sink, behind what it holds (this project).
///
/// It ends at the first write that fails. The error says how many bytes the sink took by then, fewer than all, and
/// tells the sink's count of faults, which rose or stands at `u64::MAX`.
pub fn write_all<K: Sink>(sink: &mut K, bytes: &[u8]) -> Result<(), WriteEnd>
    ensures ok { OnOk result (Appends (K.held sink.old) (K.held sink.new) bytes.now) }
    ensures err { IfErr result (λ end. Appends (K.held sink.old) (K.held sink.new) (take end.written bytes.now)) }
    ensures part { IfErr result (λ end. end.written < length bytes.now) }
    ensures fault { IfErr result (λ end. IsFault (K.faults sink.old) (K.faults sink.new) end.before end.now) }
    ensures later { K.faults sink.old ≤ K.faults sink.new }
{
    let before = sink.faults();
    let mut written = 0;
    'writes: while written < bytes.len() {
        let Ok(count) = sink.write(&bytes[written..]) else {
            let now = sink.faults();
            return Err(WriteEnd {
                written,
                before,
                now,
            });
        };
        written += count;
    }
    Ok(())
}
