use crate::calls::{Name, bytes, text};
use packet_bodies::{OpenedReply, ReplyBody, Target, ValueReply};
use sprite_ids::{DeviceId, Errno, FileId, Grant, Kernel, NoMemory};
use sprite_paths::Path;
use std::alloc::Global;

/// A grant of the file.
#[derive(Clone, Copy)]
pub(crate) struct Terms {
    pub stamp: u32,
    /// The version that the file had, and the one that it has.
    pub versions: [u32; 2],
    pub size: u32,
    /// Whether the client was the last that may have dirty blocks.
    pub holder: bool,
}

/// What a server answers.
#[derive(Clone, Copy)]
pub(crate) enum Says {
    Done,
    Here(Name),
    Refused(Errno),
    Redirect(Name),
    /// The file, under a grant of that stamp.
    Opened(u32),
    /// The file, under that grant.
    Granted(Terms),
    /// A grant in the place of an answer.
    Again(Terms),
    /// A pseudo-device.
    OpenedDevice,
    /// The first value, and how many bytes.
    Value(u64, usize),
    /// The stamp, and how many bytes.
    Block(u32, usize),
    /// The stamp of the target's grant, where there is one.
    Moved(Option<u32>),
}

// A grant of the file, which may be cached.
fn grant_of(file: &FileId, terms: &Terms) -> Grant {
    Grant {
        file: *file,
        stamp: terms.stamp,
        old: terms.versions[0],
        new: terms.versions[1],
        size: terms.size,
        on: true,
        holder: terms.holder,
    }
}

// The terms of a grant of that stamp: the file has 100 bytes.
fn plain(stamp: u32) -> Terms {
    Terms {
        stamp,
        versions: [0, 0],
        size: 100,
        holder: false,
    }
}

/// A grant of that stamp, where there is one.
pub(crate) fn some_grant(file: &FileId, stamp: Option<u32>) -> Option<Grant> {
    match stamp {
        Some(stamp) => Some(grant_of(file, &plain(stamp))),
        None => None,
    }
}

fn path(alloc: Global, name: Name) -> Result<Path, NoMemory> {
    Path::clean(alloc, &Path::root(alloc), text(name)).or(Err(NoMemory))
}

fn opened(file: &FileId, terms: &Terms) -> ReplyBody {
    ReplyBody::Opened(OpenedReply {
        object: Target::File(*file),
        grant: Some(grant_of(file, terms)),
        size: terms.size,
    })
}

fn opened_device(kernel: Kernel) -> ReplyBody {
    ReplyBody::Opened(OpenedReply {
        object: Target::Device(DeviceId { kernel, number: 1 }),
        grant: None,
        size: 0,
    })
}

/// What the server of the file answers.
pub(crate) fn body_of(alloc: Global, file: &FileId, says: Says) -> Result<ReplyBody, NoMemory> {
    match says {
        Says::Done => Ok(ReplyBody::Done),
        Says::Here(name) => Ok(ReplyBody::Here {
            path: path(alloc, name)?,
        }),
        Says::Refused(errno) => Ok(ReplyBody::Refused { errno }),
        Says::Redirect(name) => Ok(ReplyBody::Redirect {
            path: path(alloc, name)?,
        }),
        Says::Opened(stamp) => Ok(opened(file, &plain(stamp))),
        Says::Granted(terms) => Ok(opened(file, &terms)),
        Says::Again(terms) => Ok(ReplyBody::Again {
            grant: grant_of(file, &terms),
        }),
        Says::OpenedDevice => Ok(opened_device(file.server)),
        Says::Value(first, many) => Ok(ReplyBody::Value(ValueReply {
            first,
            second: 0,
            bytes: bytes(alloc, many)?,
        })),
        Says::Block(stamp, many) => Ok(ReplyBody::Block {
            stamp,
            bytes: bytes(alloc, many)?,
        }),
        Says::Moved(stamp) => Ok(ReplyBody::Moved {
            grant: some_grant(file, stamp),
            grants: 1,
        }),
    }
}
