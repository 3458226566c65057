ghost use Rattle.std.specs.Prelude.{codes, ◌≡◌, ◌++◌, OnOk, IfErr};
ghost use Rattle.field_reader.specs.Reads.{Takes};
ghost use Rattle.history_text.specs.Formats.{followed, form};
ghost use Rattle.history_text.specs.Puts.{Puts};
ghost use Rattle.history_text.specs.Calls.{call_format};
ghost use Rattle.history_text.specs.Entries.{TellsApart, asked, answered, told, told_shape, entry, entry_line, line_shape};

use crate::field::{Field, put_form};
use field_reader::{FieldEnd, Reader};
use process_machine::{Call, Reply};
use sprite_ids::{NoMemory, Pid};
use std::alloc::Global;
use unix_calls::{Entry, Part};

/// What an entry tells beside its process and its number.
type Told = (Part, (Option<Call>, Option<Reply>));

/// Puts an entry's line at the end, with its byte 10. NotSpelled comes exactly where the entry has no line. After an
/// error a part of the line may be there.
pub fn put_line(alloc: Global, out: &mut Vec<u8>, entry: &Entry) -> Result<(), FieldEnd>
    ensures puts { Puts (line_shape entry.now) result out.old.items out.new.items }
    ensures apart { IfErr result (TellsApart entry.now.part entry.now.call entry.now.reply) }
{
    (entry.pid, entry.number).put(alloc, out)?;
    out.push(b' ')?;
    put_told(alloc, out, entry.part, &entry.call, &entry.reply)?;
    out.push(b'\n')?;
    Ok(())
}

/// Puts what an entry tells beside its process and its number. NotSpelled comes exactly where these parts don't belong
/// together. After an error a part of the print may be there.
pub fn put_told(
    alloc: Global,
    out: &mut Vec<u8>,
    part: Part,
    call: &Option<Call>,
    reply: &Option<Reply>,
) -> Result<(), FieldEnd>
    ensures puts { Puts (told_shape part call.now reply.now) result out.old.items out.new.items }
    ensures apart { IfErr result (TellsApart part call.now reply.now) }
{
    match (part, call, reply) {
        (Part::Whole, Some(call), Some(reply)) => {
            put_answered(alloc, out, b"whole", call, reply)?;
        }
        (Part::Ask, Some(call), None) => put_asked(alloc, out, call)?,
        (Part::Done, Some(call), Some(reply)) => {
            put_answered(alloc, out, b"done", call, reply)?;
        }
        (Part::Death, None, None) => out.extend_from_slice(b"death")?,
        _ => return Err(FieldEnd::NotSpelled),
    }
    Ok(())
}

/// Puts the name of a part, a call and its reply. The one error is want of memory; a part may be there then.
fn put_answered(
    alloc: Global,
    out: &mut Vec<u8>,
    name: &[u8],
    call: &Call,
    reply: &Reply,
) -> Result<(), NoMemory>
    ensures print { OnOk result (out.new.items ≡ out.old.items ++ (form name.now answered (call.now, reply.now)).printed) }
    ensures fits { OnOk result (form name.now answered (call.now, reply.now)).Fits }
{
    put_form(alloc, out, name, call)?;
    out.extend_from_slice(b" -> ")?;
    reply.put(alloc, out)
}

/// Puts an ask and its call. The one error is want of memory; a part may be there then.
fn put_asked(alloc: Global, out: &mut Vec<u8>, call: &Call) -> Result<(), NoMemory>
    ensures print { OnOk result (out.new.items ≡ out.old.items ++ (form (codes "ask") asked call.now).printed) }
    ensures fits { OnOk result (form (codes "ask") asked call.now).Fits }
{
    put_form(alloc, out, b"ask", call)?;
    out.extend_from_slice(b" -> -")?;
    Ok(())
}

/// Reads the entry whose line stands at the front. NotSpelled comes exactly where no entry's line stands there.
pub fn read_line(alloc: Global, from: &mut Reader) -> Result<Entry, FieldEnd>
    ensures { Takes (entry_line.read from.old) result from.new }
{
    let entry = read_entry(alloc, from)?;
    from.sign(b"\n")?;
    Ok(entry)
}

/// Reads the entry that is printed at the front, without its byte 10. NotSpelled comes exactly where none is printed there;
/// some bytes may be read then.
pub fn read_entry(alloc: Global, from: &mut Reader) -> Result<Entry, FieldEnd>
    ensures { Takes (entry.read from.old) result from.new }
{
    let pid = Pid::read_from(alloc, from)?;
    from.sign(b" ")?;
    let number = u32::read_from(alloc, from)?;
    from.sign(b" ")?;
    let (part, (call, reply)) = read_told(alloc, from)?;
    Ok(Entry {
        pid,
        number,
        part,
        call,
        reply,
    })
}

/// Reads what an entry tells beside its process and its number.
fn read_told(alloc: Global, from: &mut Reader) -> Result<Told, FieldEnd>
    ensures { Takes (told.read from.old) result from.new }
{
    let name = from.word();
    if name == b"whole".as_slice() {
        from.sign(b" ")?;
        let (call, reply) = read_answered(alloc, from)?;
        Ok((Part::Whole, (Some(call), Some(reply))))
    } else if name == b"ask".as_slice() {
        from.sign(b" ")?;
        let call = read_call_before(alloc, from, b" -> -")?;
        Ok((Part::Ask, (Some(call), None)))
    } else if name == b"done".as_slice() {
        from.sign(b" ")?;
        let (call, reply) = read_answered(alloc, from)?;
        Ok((Part::Done, (Some(call), Some(reply))))
    } else if name == b"death".as_slice() {
        Ok((Part::Death, (None, None)))
    } else {
        Err(FieldEnd::NotSpelled)
    }
}

/// Reads a call and its reply.
fn read_answered(alloc: Global, from: &mut Reader) -> Result<(Call, Reply), FieldEnd>
    ensures { Takes (answered.read from.old) result from.new }
{
    let call = read_call_before(alloc, from, b" -> ")?;
    let reply = Reply::read_from(alloc, from)?;
    Ok((call, reply))
}

/// Reads a call and the sign that stands behind it.
fn read_call_before(alloc: Global, from: &mut Reader, sign: &[u8]) -> Result<Call, FieldEnd>
    ensures { Takes ((followed call_format sign.now).read from.old) result from.new }
{
    let call = Call::read_from(alloc, from)?;
    from.sign(sign)?;
    Ok(call)
}
