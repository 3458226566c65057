ghost use Rattle.std.specs.Prelude.{◌≡◌, ◌∷◌, ◌++◌, IfOk, IfSome, OnOk};
ghost use Rattle.wire_format.specs.Packets.{IsPacket, header, is_reply, packet, reading, spelling};
ghost use Rattle.wire_format.specs.PacketLaws.{packet_is, read_is_spelled, spelled_is_read};

use crate::field::Field;
use field_reader::{FieldEnd, Reader};
use packet_bodies::{Body, ReplyBody, Request};
use sprite_bytes::Message;
use sprite_ids::{Copying, Kernel, NoMemory, TxNo};
use std::alloc::Global;

/// A packet of a remote call (Welch 1986; the fields are this project's).
///
/// It is spelled as one byte for the kind, 1 for a request and 2 for a reply, the sender and the receiver in one byte
/// each, the call's number in four bytes, the lowest first, one byte for the form of the body, and the form's fields.
#[derive(Debug, PartialEq, Eq, Drop)]
pub struct Packet {
    /// The kernel that sends it.
    pub from: Kernel,
    /// The kernel that it is for.
    pub to: Kernel,
    /// The remote call that it belongs to.
    pub tx: TxNo,
    /// What it says.
    pub body: Body,
}

impl Packet {
    /// Whether it is a reply.
    pub fn is_reply(&self) -> bool
        ensures { result ≡ is_reply self.now.body }
    {
        matches!(&self.body, Body::Reply(_))
    }

    // Puts the kind and what stands before the body at the end.
    fn put_header(&self, out: &mut Vec<u8>, kind: u8) -> Result<(), NoMemory>
        ensures bytes { OnOk result (out.new.items ≡ out.old.items ++ kind ∷ header.spelled (self.now.from, (self.now.to, self.now.tx))) }
        ensures fits { OnOk result (header.Fits (self.now.from, (self.now.to, self.now.tx))) }
    {
        out.push(kind)?;
        self.from.put(out)?;
        self.to.put(out)?;
        self.tx.put(out)
    }
}

impl Field for Packet {
    ghost codec = { packet };

    ghost law = { packet_is };

    fn put(&self, out: &mut Vec<u8>) -> Result<(), NoMemory> {
        match &self.body {
            Body::Request(request) => {
                self.put_header(out, 1)?;
                request.put(out)
            }
            Body::Reply(reply) => {
                self.put_header(out, 2)?;
                reply.put(out)
            }
        }
    }

    fn read_from(alloc: Global, from: &mut Reader) -> Result<Packet, FieldEnd> {
        match u8::read_from(alloc, from)? {
            1 => {
                let (sender, (to, tx)) = <(Kernel, (Kernel, TxNo))>::read_from(alloc, from)?;
                let body = Body::Request(Request::read_from(alloc, from)?);
                Ok(Packet {
                    from: sender,
                    to,
                    tx,
                    body,
                })
            }
            2 => {
                let (sender, (to, tx)) = <(Kernel, (Kernel, TxNo))>::read_from(alloc, from)?;
                let body = Body::Reply(ReplyBody::read_from(alloc, from)?);
                Ok(Packet {
                    from: sender,
                    to,
                    tx,
                    body,
                })
            }
            _ => Err(FieldEnd::NotSpelled),
        }
    }
}

/// Each packet has one spelling.
impl Message for Packet {
    ghost is_message = { IsPacket };

    ghost spelling = { spelling };

    ghost reading = { reading };

    ghost again = { spelled_is_read };

    ghost alone = { read_is_spelled };

    fn spell(&self, alloc: Global) -> Result<Vec<u8>, NoMemory> {
        let mut bytes = Vec::new(alloc);
        self.put(&mut bytes)?;
        Ok(bytes)
    }

    fn read(alloc: Global, bytes: &[u8]) -> Result<Option<Packet>, NoMemory>
        ensures value { IfOk result (λ message. message ≡ reading bytes.now) }
        ensures known { IfOk result (λ message. IfSome message IsPacket) }
    {
        let mut from = Reader::new(bytes);
        match Packet::read_from(alloc, &mut from) {
            Ok(packet) if from.is_empty() => Ok(Some(packet)),
            Ok(_) | Err(FieldEnd::NotSpelled) => Ok(None),
            Err(FieldEnd::NoMemory) => Err(NoMemory),
        }
    }
}

impl Copying for Packet {
    fn copy(&self, alloc: Global) -> Result<Packet, NoMemory> {
        Ok(Packet {
            from: self.from,
            to: self.to,
            tx: self.tx,
            body: self.body.copy(alloc)?,
        })
    }
}
