ghost use Rattle.wire_format.specs.Requests.{home_request};
ghost use Rattle.wire_format.specs.RequestLaws.{home_request_is};

use crate::field::Field;
use field_reader::{FieldEnd, Reader};
use packet_bodies::{HomeCall, HomeRequest};
use sprite_ids::{NoMemory, Pid};
use std::alloc::Global;

impl Field for HomeRequest {
    ghost codec = { home_request };

    ghost law = { home_request_is };

    fn put(&self, out: &mut Vec<u8>) -> Result<(), NoMemory> {
        self.pid.put(out)?;
        self.number.put(out)?;
        self.call.put(out)
    }

    fn read_from(alloc: Global, from: &mut Reader) -> Result<HomeRequest, FieldEnd> {
        Ok(HomeRequest {
            pid: Pid::read_from(alloc, from)?,
            number: u32::read_from(alloc, from)?,
            call: HomeCall::read_from(alloc, from)?,
        })
    }
}
