use crate::opened_reply::OpenedReply;
use crate::value_reply::ValueReply;
use sprite_ids::{Bytes, Copying, Errno, Flushed, Grant, NoMemory};
use sprite_paths::Path;
use std::alloc::Global;

/// What a kernel answers to another, with the fields of its form.
#[derive(Debug, PartialEq, Eq, Drop)]
pub enum ReplyBody {
    /// 1: it is done.
    Done,
    /// 2: the domain of the path is here (Welch and Ousterhout 1986).
    Here {
        /// The path.
        path: Path,
    },
    /// 3: the call is refused.
    Refused {
        /// Why.
        errno: Errno,
    },
    /// 4: the path leads on into another domain (Welch and Ousterhout 1986).
    Redirect {
        /// The path.
        path: Path,
    },
    /// 5: what an open made.
    Opened(OpenedReply),
    /// 6: what the call answers.
    Value(ValueReply),
    /// 7: the stamp was not the current one; this grant has it.
    Again {
        /// The grant.
        grant: Grant,
    },
    /// 8: a block of a file, with the stamp at which it was read.
    Block {
        /// The stamp.
        stamp: u32,
        /// The bytes.
        bytes: Bytes,
    },
    /// 9: the answer to a callback.
    Flushed(Flushed),
    /// 10: the stream has moved.
    Moved {
        /// The grant.
        grant: Option<Grant>,
        /// How many grants of the stream go with it.
        grants: u32,
    },
    /// 11: a page of a process.
    Page {
        /// The bytes.
        bytes: Bytes,
    },
    /// 12: the process is not here (Douglis and Ousterhout 1991).
    Gone,
}

impl Copying for ReplyBody {
    fn copy(&self, alloc: Global) -> Result<ReplyBody, NoMemory> {
        Ok(match self {
            ReplyBody::Done => ReplyBody::Done,
            ReplyBody::Here { path } => ReplyBody::Here {
                path: path.copy(alloc)?,
            },
            ReplyBody::Refused { errno } => ReplyBody::Refused { errno: *errno },
            ReplyBody::Redirect { path } => ReplyBody::Redirect {
                path: path.copy(alloc)?,
            },
            ReplyBody::Opened(fields) => ReplyBody::Opened(*fields),
            ReplyBody::Value(fields) => ReplyBody::Value(fields.copy(alloc)?),
            ReplyBody::Again { grant } => ReplyBody::Again { grant: *grant },
            ReplyBody::Block { stamp, bytes } => ReplyBody::Block {
                stamp: *stamp,
                bytes: bytes.copy(alloc)?,
            },
            ReplyBody::Flushed(fields) => ReplyBody::Flushed(fields.copy(alloc)?),
            ReplyBody::Moved { grant, grants } => ReplyBody::Moved {
                grant: *grant,
                grants: *grants,
            },
            ReplyBody::Page { bytes } => ReplyBody::Page {
                bytes: bytes.copy(alloc)?,
            },
            ReplyBody::Gone => ReplyBody::Gone,
        })
    }
}
