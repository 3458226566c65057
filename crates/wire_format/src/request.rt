ghost use Rattle.field_reader.specs.Reads.{Takes};
ghost use Rattle.wire_format.specs.Codec.{row_read};
ghost use Rattle.wire_format.specs.Requests.{last_rows, later_rows, request};
ghost use Rattle.wire_format.specs.RequestLaws.{request_is};

use crate::field::{Field, put_form};
use field_reader::{FieldEnd, Reader};
use packet_bodies::{
    AskRequest, CallbackRequest, CloseRequest, FetchRequest, HomeRequest, LaunchRequest,
    MakeRequest, MoveRequest, NameRequest, OpRequest, OpeningRequest, PageOutRequest, Request,
    TransferRequest, WriteBackRequest,
};
use sprite_ids::{Kernel, NoMemory, Pid};
use sprite_paths::Path;
use std::alloc::Global;

impl Field for Request {
    ghost codec = { request };

    ghost law = { request_is };

    fn put(&self, out: &mut Vec<u8>) -> Result<(), NoMemory> {
        match self {
            Request::Echo => Ok(out.push(1)?),
            Request::Prefix { path } => put_form(out, 2, path),
            Request::Opening(fields) => put_form(out, 3, fields),
            Request::Name(fields) => put_form(out, 4, fields),
            Request::Make(fields) => put_form(out, 5, fields),
            Request::Close(fields) => put_form(out, 6, fields),
            Request::Op(fields) => put_form(out, 7, fields),
            Request::Fetch(fields) => put_form(out, 8, fields),
            Request::WriteBack(fields) => put_form(out, 9, fields),
            Request::Callback(fields) => put_form(out, 10, fields),
            Request::Move(fields) => put_form(out, 11, fields),
            Request::Transfer(fields) => put_form(out, 12, fields),
            Request::Home(fields) => put_form(out, 13, fields),
            Request::Place { pid, kernel } => put_form(out, 14, &(*pid, *kernel)),
            Request::Killed { pid } => put_form(out, 15, pid),
            Request::Ask(fields) => put_form(out, 16, fields),
            Request::PageOut(fields) => put_form(out, 17, fields),
            Request::PageIn { pid, page } => put_form(out, 18, &(*pid, *page)),
            Request::Launch(fields) => put_form(out, 19, fields),
        }
    }

    fn read_from(alloc: Global, from: &mut Reader) -> Result<Request, FieldEnd> {
        let tag = u8::read_from(alloc, from)?;
        match tag {
            1 => Ok(Request::Echo),
            2 => Ok(Request::Prefix {
                path: Path::read_from(alloc, from)?,
            }),
            3 => Ok(Request::Opening(OpeningRequest::read_from(alloc, from)?)),
            4 => Ok(Request::Name(NameRequest::read_from(alloc, from)?)),
            5 => Ok(Request::Make(MakeRequest::read_from(alloc, from)?)),
            6 => Ok(Request::Close(CloseRequest::read_from(alloc, from)?)),
            7 => Ok(Request::Op(OpRequest::read_from(alloc, from)?)),
            _ => read_later(alloc, tag, from),
        }
    }
}

// Reads the fields of a form that has that number, 8 or more.
fn read_later(alloc: Global, tag: u8, from: &mut Reader) -> Result<Request, FieldEnd>
    ensures { Takes (row_read later_rows tag from.old) result from.new }
{
    match tag {
        8 => Ok(Request::Fetch(FetchRequest::read_from(alloc, from)?)),
        9 => Ok(Request::WriteBack(WriteBackRequest::read_from(alloc, from)?)),
        10 => Ok(Request::Callback(CallbackRequest::read_from(alloc, from)?)),
        11 => Ok(Request::Move(MoveRequest::read_from(alloc, from)?)),
        12 => Ok(Request::Transfer(TransferRequest::read_from(alloc, from)?)),
        13 => Ok(Request::Home(HomeRequest::read_from(alloc, from)?)),
        _ => read_last(alloc, tag, from),
    }
}

// Reads the fields of a form that has that number, 14 or more.
fn read_last(alloc: Global, tag: u8, from: &mut Reader) -> Result<Request, FieldEnd>
    ensures { Takes (row_read last_rows tag from.old) result from.new }
{
    match tag {
        14 => {
            let (pid, kernel) = <(Pid, Kernel)>::read_from(alloc, from)?;
            Ok(Request::Place { pid, kernel })
        }
        15 => Ok(Request::Killed {
            pid: Pid::read_from(alloc, from)?,
        }),
        16 => Ok(Request::Ask(AskRequest::read_from(alloc, from)?)),
        17 => Ok(Request::PageOut(PageOutRequest::read_from(alloc, from)?)),
        18 => {
            let (pid, page) = <(Pid, u8)>::read_from(alloc, from)?;
            Ok(Request::PageIn { pid, page })
        }
        19 => Ok(Request::Launch(LaunchRequest::read_from(alloc, from)?)),
        _ => Err(FieldEnd::NotSpelled),
    }
}
