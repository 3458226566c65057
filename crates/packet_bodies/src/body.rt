use crate::reply_body::ReplyBody;
use crate::request::Request;
use sprite_ids::{Copying, NoMemory};
use std::alloc::Global;

/// What a packet says.
#[derive(Debug, PartialEq, Eq, Drop)]
pub enum Body {
    /// 1: a request.
    Request(Request),
    /// 2: a reply.
    Reply(ReplyBody),
}

impl Copying for Body {
    fn copy(&self, alloc: Global) -> Result<Body, NoMemory> {
        match self {
            Body::Request(request) => Ok(Body::Request(request.copy(alloc)?)),
            Body::Reply(reply) => Ok(Body::Reply(reply.copy(alloc)?)),
        }
    }
}
