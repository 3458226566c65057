ghost use Rattle.field_reader.specs.Reads.{Takes};
ghost use Rattle.wire_format.specs.Codec.{row_read};
ghost use Rattle.wire_format.specs.Replies.{later_rows, reply};
ghost use Rattle.wire_format.specs.ReplyLaws.{reply_is};

use crate::field::{Field, put_form};
use field_reader::{FieldEnd, Reader};
use packet_bodies::{OpenedReply, ReplyBody, ValueReply};
use sprite_ids::{Bytes, Errno, Flushed, Grant, NoMemory};
use sprite_paths::Path;
use std::alloc::Global;

impl Field for ReplyBody {
    ghost codec = { reply };

    ghost law = { reply_is };

    fn put(&self, out: &mut Vec<u8>) -> Result<(), NoMemory> {
        match self {
            ReplyBody::Done => Ok(out.push(1)?),
            ReplyBody::Here { path } => put_form(out, 2, path),
            ReplyBody::Refused { errno } => put_form(out, 3, errno),
            ReplyBody::Redirect { path } => put_form(out, 4, path),
            ReplyBody::Opened(fields) => put_form(out, 5, fields),
            ReplyBody::Value(fields) => put_form(out, 6, fields),
            ReplyBody::Again { grant } => put_form(out, 7, grant),
            ReplyBody::Block { stamp, bytes } => {
                put_form(out, 8, stamp)?;
                bytes.put(out)
            }
            ReplyBody::Flushed(fields) => put_form(out, 9, fields),
            ReplyBody::Moved { grant, grants } => put_form(out, 10, &(*grant, *grants)),
            ReplyBody::Page { bytes } => put_form(out, 11, bytes),
            ReplyBody::Gone => Ok(out.push(12)?),
        }
    }

    fn read_from(alloc: Global, from: &mut Reader) -> Result<ReplyBody, FieldEnd> {
        let tag = u8::read_from(alloc, from)?;
        match tag {
            1 => Ok(ReplyBody::Done),
            2 => Ok(ReplyBody::Here {
                path: Path::read_from(alloc, from)?,
            }),
            3 => Ok(ReplyBody::Refused {
                errno: Errno::read_from(alloc, from)?,
            }),
            4 => Ok(ReplyBody::Redirect {
                path: Path::read_from(alloc, from)?,
            }),
            5 => Ok(ReplyBody::Opened(OpenedReply::read_from(alloc, from)?)),
            6 => Ok(ReplyBody::Value(ValueReply::read_from(alloc, from)?)),
            _ => read_later(alloc, tag, from),
        }
    }
}

// Reads the fields of a form that has that number, 7 or more.
fn read_later(alloc: Global, tag: u8, from: &mut Reader) -> Result<ReplyBody, FieldEnd>
    ensures { Takes (row_read later_rows tag from.old) result from.new }
{
    match tag {
        7 => Ok(ReplyBody::Again {
            grant: Grant::read_from(alloc, from)?,
        }),
        8 => {
            let (stamp, bytes) = <(u32, Bytes)>::read_from(alloc, from)?;
            Ok(ReplyBody::Block { stamp, bytes })
        }
        9 => Ok(ReplyBody::Flushed(Flushed::read_from(alloc, from)?)),
        10 => {
            let (grant, grants) = <(Option<Grant>, u32)>::read_from(alloc, from)?;
            Ok(ReplyBody::Moved { grant, grants })
        }
        11 => Ok(ReplyBody::Page {
            bytes: Bytes::read_from(alloc, from)?,
        }),
        12 => Ok(ReplyBody::Gone),
        _ => Err(FieldEnd::NotSpelled),
    }
}
