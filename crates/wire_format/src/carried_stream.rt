ghost use Rattle.wire_format.specs.Objects.{carried_stream};
ghost use Rattle.wire_format.specs.ObjectLaws.{carried_stream_is};

use crate::field::Field;
use field_reader::{FieldEnd, Reader};
use packet_bodies::{CarriedMode, CarriedStream, Target};
use sprite_ids::{Grant, NoMemory, StreamNo};
use std::alloc::Global;

// The fields, as they stand one behind another.
type Parts = (
    StreamNo,
    (Target, (CarriedMode, (Option<u32>, (Option<Grant>, u32)))),
);

impl Field for CarriedStream {
    ghost codec = { carried_stream };

    ghost law = { carried_stream_is };

    fn put(&self, out: &mut Vec<u8>) -> Result<(), NoMemory> {
        self.stream.put(out)?;
        self.object.put(out)?;
        self.mode.put(out)?;
        self.offset.put(out)?;
        self.grant.put(out)?;
        self.grants.put(out)
    }

    fn read_from(alloc: Global, from: &mut Reader) -> Result<CarriedStream, FieldEnd> {
        let (stream, (object, (mode, (offset, (grant, grants))))) = Parts::read_from(alloc, from)?;
        Ok(CarriedStream {
            stream,
            object,
            mode,
            offset,
            grant,
            grants,
        })
    }
}
