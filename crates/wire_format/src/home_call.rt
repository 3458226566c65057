ghost use Rattle.wire_format.specs.Objects.{home_call};
ghost use Rattle.wire_format.specs.ObjectLaws.{home_call_is};

use crate::field::{Field, put_form};
use field_reader::{FieldEnd, Reader};
use packet_bodies::HomeCall;
use sprite_ids::{Bytes, NoMemory, Pid};
use std::alloc::Global;

impl Field for HomeCall {
    ghost codec = { home_call };

    ghost law = { home_call_is };

    fn put(&self, out: &mut Vec<u8>) -> Result<(), NoMemory> {
        match self {
            HomeCall::Print { bytes } => put_form(out, 1, bytes),
            HomeCall::Exit { code } => put_form(out, 2, code),
            HomeCall::Getppid => Ok(out.push(4)?),
            HomeCall::Host { max } => put_form(out, 5, max),
            HomeCall::Tick => Ok(out.push(6)?),
            HomeCall::Fork => Ok(out.push(7)?),
            HomeCall::Wait => Ok(out.push(9)?),
            HomeCall::Kill { pid } => put_form(out, 10, pid),
        }
    }

    fn read_from(alloc: Global, from: &mut Reader) -> Result<HomeCall, FieldEnd> {
        match u8::read_from(alloc, from)? {
            1 => Ok(HomeCall::Print {
                bytes: Bytes::read_from(alloc, from)?,
            }),
            2 => Ok(HomeCall::Exit {
                code: u64::read_from(alloc, from)?,
            }),
            4 => Ok(HomeCall::Getppid),
            5 => Ok(HomeCall::Host {
                max: u64::read_from(alloc, from)?,
            }),
            6 => Ok(HomeCall::Tick),
            7 => Ok(HomeCall::Fork),
            9 => Ok(HomeCall::Wait),
            10 => Ok(HomeCall::Kill {
                pid: Pid::read_from(alloc, from)?,
            }),
            _ => Err(FieldEnd::NotSpelled),
        }
    }
}
