use link_plan::Fate;
use process_machine::Call;
use sprite_ids::{CacheMode, FileId, Kernel, Pid};
use unix_calls::{About, Entry, Event, Part, Rec, SendKind};

/// What a record tells of, as far as a picture's plan wants to know it (this project).
#[derive(Clone, Copy)]
pub enum Deed {
    Runs,
    Issues,
    Returns,
    Freezes,
    Thaws,
    /// An entry joins the history; `last` where it ends its process.
    Enters { last: bool },
    /// A request goes out; `tx` is the remote call's number, here and below.
    Sends { tx: u32, to: Kernel },
    Faults { to: Kernel, fate: Fate },
    Comes { tx: u32, from: Kernel, reply: bool },
    Expires { tx: u32, last: bool },
    /// A kernel's use of a file changes.
    Caches { mode: CacheMode },
    /// Anything else is done with a file.
    Works,
    Learns,
}

/// A record, as far as a picture's plan wants to know it (this project).
#[derive(Clone, Copy)]
pub struct Seen {
    pub kernel: Kernel,
    /// The call for whose sake it is; of a burst, a freeze and a thaw the number counts for nothing.
    pub about: Option<About>,
    pub file: Option<FileId>,
    pub deed: Deed,
}

impl Seen {
    /// The process for whose sake the record is.
    pub fn pid(&self) -> Option<Pid> {
        Some(self.about?.pid)
    }
}

/// What a picture's plan wants to know of a record.
pub fn seen_of(rec: &Rec) -> Seen {
    let kernel = rec.kernel;
    match &rec.event {
        Event::Burst { pid, .. } => of_process(kernel, *pid, 0, Deed::Runs),
        Event::Issue { pid, number, .. } => of_process(kernel, *pid, *number, Deed::Issues),
        Event::Return { pid, number, .. } => of_process(kernel, *pid, *number, Deed::Returns),
        Event::Freeze { pid } => of_process(kernel, *pid, 0, Deed::Freezes),
        Event::Thaw { pid } => of_process(kernel, *pid, 0, Deed::Thaws),
        Event::Enter { entry } => {
            let last = is_last(entry);
            of_process(kernel, entry.pid, entry.number, Deed::Enters { last })
        }
        Event::Send {
            tx,
            to,
            about,
            kind,
        } => Seen {
            kernel,
            about: *about,
            file: file_of(kind),
            deed: Deed::Sends { tx: tx.0, to: *to },
        },
        Event::Deliver {
            tx,
            from,
            reply,
            about,
        } => of_packet(
            kernel,
            *about,
            Deed::Comes {
                tx: tx.0,
                from: *from,
                reply: *reply,
            },
        ),
        Event::Fault { b, fate, .. } => of_packet(
            kernel,
            None,
            Deed::Faults {
                to: *b,
                fate: *fate,
            },
        ),
        Event::Expire { tx, last } => of_packet(
            kernel,
            None,
            Deed::Expires {
                tx: tx.0,
                last: *last,
            },
        ),
        Event::Mode { file, mode, .. } => of_file(kernel, *file, Deed::Caches { mode: *mode }),
        Event::Grant { file, .. } | Event::Callback { file, .. } => {
            of_file(kernel, *file, Deed::Works)
        }
        Event::Filled { file, .. } | Event::Dropped { file, .. } | Event::Dirtied { file, .. } => {
            of_file(kernel, *file, Deed::Works)
        }
        Event::WroteBack { file, .. } | Event::Opened { file, .. } => {
            of_file(kernel, *file, Deed::Works)
        }
        Event::Closed { file, .. } | Event::Shared { file, .. } => {
            of_file(kernel, *file, Deed::Works)
        }
        Event::Learned { .. } => of_packet(kernel, None, Deed::Learns),
    }
}

fn of_process(kernel: Kernel, pid: Pid, number: u32, deed: Deed) -> Seen {
    of_packet(kernel, Some(About { pid, number }), deed)
}

fn of_packet(kernel: Kernel, about: Option<About>, deed: Deed) -> Seen {
    Seen {
        kernel,
        about,
        file: None,
        deed,
    }
}

fn of_file(kernel: Kernel, file: FileId, deed: Deed) -> Seen {
    Seen {
        kernel,
        about: None,
        file: Some(file),
        deed,
    }
}

// Whether an entry is the last of its process: its exit, a bad instruction or a death.
fn is_last(entry: &Entry) -> bool {
    match (entry.part, &entry.call) {
        (Part::Death, _) => true,
        (_, Some(Call::Exit { .. })) => true,
        (_, Some(Call::BadStep)) => true,
        _ => false,
    }
}

// The file that a request is for.
fn file_of(kind: &SendKind) -> Option<FileId> {
    match kind {
        SendKind::Op { file } => Some(*file),
        SendKind::Fetch { file, .. } | SendKind::WriteBack { file, .. } => Some(*file),
        SendKind::Broadcast { .. } | SendKind::Other => None,
    }
}
