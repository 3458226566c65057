ghost use Rattle.std.specs.Prelude.{◌≡◌, ◌≤◌, ◌<◌, ◌+◌, IsTrue, IfOk, OnOk, OnErr, Some, true, false, suc, fold, length, not};
ghost use Rattle.version_table.specs.Lists.{is_any};
ghost use Rattle.version_table.specs.Files.{fresh, is_busy, is_ready, is_holder, is_on, is_uncached, is_stopped, is_recalled, call_of, calls_to, called, new_version, grant_of, given_to, granted, told, waiting, decided, deciding, calls_of, is_out, is_any_out, answered, is_last, settled, settled_grant, closed, is_closed, plain, current, is_roomy, IsPrepared};
ghost use Rattle.version_table.specs.Decisions.{decision_of};
ghost use Rattle.version_table.specs.Modes.{mode_of_grant};
ghost use Rattle.version_table.specs.Opens.{opened, sharing, count_in, open_at, stream_mode};

use crate::action::{Action, Decision};
use crate::opens::{
    Open, are_roomy, count_of, has_open, is_stream_open, is_write_shared, is_writing, opened,
    sharing, stream_mode, take_off, take_out,
};
use sprite_ids::{
    CacheMode, CallKind, Callback, FileId, Grant, Items, Kernel, Mode, NoMemory, StreamNo,
};
use std::alloc::Global;

/// The most that a stamp or a version may be where it is to be raised (this project).
const ROOM: u32 = 2_000_000_000;

/// An open or a move that waits for callbacks, with what it leads to.
#[derive(Debug, Drop)]
pub struct Asking {
    pub action: Action,
    /// Who will have the file open.
    pub opens: Items<Open>,
    /// The streams that will be shared.
    pub shared: Items<StreamNo>,
}

/// What the server keeps of a file. Lists over kernels have kernel 1 first.
#[derive(Debug, Drop)]
pub struct Versioned {
    pub file: FileId,
    /// It begins with 1.
    pub version: u32,
    /// The kernel that may have dirty blocks.
    pub holder: Option<Kernel>,
    /// Whether no kernel may cache it.
    pub uncached: bool,
    /// Who has it open.
    pub opens: Items<Open>,
    /// Its streams whose offset is kept at the server.
    pub shared: Items<StreamNo>,
    /// The stamp given last.
    pub stamp: u32,
    /// The current stamp of each kernel; 0 before the first.
    pub stamps: [u32; 16],
    /// The mode given last to each kernel.
    pub modes: [CacheMode; 16],
    /// The grant given last to each kernel.
    pub given: [Option<Grant>; 16],
    /// The kernels whose callbacks are out.
    pub out: [bool; 16],
    /// What waits for them; the file is then busy.
    pub asking: Option<Asking>,
}

impl Versioned {
    // A file that nobody opened so far.
    pub(crate) fn fresh(alloc: Global, file: &FileId) -> Versioned
        ensures { result ≡ fresh file.now }
    {
        Versioned {
            file: *file,
            version: 1,
            holder: None,
            uncached: false,
            opens: Items::new(alloc),
            shared: Items::new(alloc),
            stamp: 0,
            stamps: [0; 16],
            modes: [CacheMode::None; 16],
            given: [None; 16],
            out: [false; 16],
            asking: None,
        }
    }

    // Whether an open or a move waits for callbacks.
    pub(crate) fn is_busy(&self) -> bool
        ensures { result ≡ is_busy self.now }
    {
        self.asking.is_some()
    }

    // Whether stamps, version and counts may be raised.
    pub(crate) fn is_roomy(&self) -> bool
        ensures { result ≡ is_roomy self.now }
    {
        self.stamp <= ROOM && self.version <= ROOM && are_roomy(self.opens.as_slice())
    }

    // Whether the kernel is the possible holder of dirty blocks.
    fn is_holder(&self, kernel: Kernel) -> bool
        ensures { result ≡ is_holder self.now kernel }
    {
        match self.holder {
            Some(other) => other == kernel,
            None => false,
        }
    }

    // Whether the mode that the kernel was given last is On.
    fn is_on(&self, kernel: Kernel) -> bool
        ensures { result ≡ is_on self.now kernel }
    {
        match self.modes.get(usize::from(kernel.number() - 1)) {
            Some(mode) => matches!(*mode, CacheMode::On),
            None => false,
        }
    }

    // Whether a decision stops the kernel where it makes the file uncached.
    fn is_stopped(&self, action: &Action, kernel: Kernel) -> bool
        ensures { result ≡ is_stopped self.now action.now kernel }
    {
        self.is_on(kernel) || (action.truncates() && has_open(self.opens.as_slice(), kernel))
    }

    // Whether a decision recalls the kernel's blocks where the file stays cached.
    fn is_recalled(&self, action: &Action, kernel: Kernel) -> bool
        ensures { result ≡ is_recalled self.now action.now kernel }
    {
        self.is_holder(kernel) && (action.truncates() || action.receiver() != kernel)
    }

    // The one callback that a decision sends to the kernel.
    fn call_of(&self, uncached: bool, action: &Action, kernel: Kernel) -> Option<CallKind>
        ensures { result ≡ call_of uncached self.now action.now kernel }
    {
        if uncached {
            if self.is_stopped(action, kernel) {
                return Some(CallKind::Stop);
            }
            return None;
        }
        if self.is_recalled(action, kernel) {
            return Some(CallKind::Recall);
        }
        None
    }

    // The callbacks that a decision sends.
    fn calls(
        &self,
        alloc: Global,
        uncached: bool,
        action: &Action,
    ) -> Result<Items<Callback>, NoMemory>
        requires { self.now.stamp ≤ 2000000000 }
        ensures { IfOk result (λ calls. calls ≡ calls_to uncached self.now action.now 16) }
    {
        let mut calls = Items::new(alloc);
        for place in 0..16 {
            if let Some(to) = Kernel::new(place + 1) {
                if let Some(kind) = self.call_of(uncached, action, to) {
                    let stamp = self.stamp + calls.len() as u32 + 1;
                    let file = self.file;
                    calls.append(&[Callback {
                        file,
                        to,
                        stamp,
                        kind,
                    }])?;
                }
            }
        }
        Ok(calls)
    }

    // A callback went out.
    fn call(&mut self, call: &Callback)
        ensures { self.new ≡ called self.old call.now }
    {
        let place = usize::from(call.to.number() - 1);
        self.stamp = call.stamp;
        self.stamps[place] = call.stamp;
        self.out[place] = true;
        if matches!(call.kind, CallKind::Stop) {
            self.modes[place] = CacheMode::Off;
        }
    }

    // These callbacks went out.
    fn call_all(&mut self, calls: &[Callback])
        ensures { self.new ≡ fold called self.old calls.now }
    {
        for call in calls {
            self.call(call);
        }
    }

    // The version from the grant on.
    fn new_version(&self, action: &Action) -> u32
        requires { self.now.version ≤ 2000000000 }
        ensures { result ≡ new_version self.now action.now }
    {
        let writing = is_writing(self.opens.as_slice(), action);
        if action.truncates() || (writing && !self.is_holder(action.receiver())) {
            self.version + 1
        } else {
            self.version
        }
    }

    // The grant of the open or move.
    fn grant_of(&self, action: &Action) -> Grant
        requires stamp { self.now.stamp ≤ 2000000016 }
        requires version { self.now.version ≤ 2000000000 }
        ensures { result ≡ grant_of self.now action.now }
    {
        let new = self.new_version(action);
        let old = if action.truncates() {
            new
        } else {
            self.version
        };
        Grant {
            file: self.file,
            stamp: self.stamp + 1,
            old,
            new,
            size: 0,
            on: !self.uncached,
            holder: self.is_holder(action.receiver()),
        }
    }

    // Grants the open or move, which leads to these opens and shared streams.
    fn grant(&mut self, action: &Action, opens: Items<Open>, shared: Items<StreamNo>) -> Grant
        requires stamp { self.old.stamp ≤ 2000000016 }
        requires version { self.old.version ≤ 2000000000 }
        ensures file { self.new ≡ granted self.old action.now opens shared }
        ensures grant { result ≡ grant_of self.old action.now }
    {
        let grant = self.grant_of(action);
        let to = action.receiver();
        if is_writing(self.opens.as_slice(), action) && !self.uncached {
            self.holder = Some(to);
        }
        self.give(to, &grant);
        self.opens = opens;
        self.shared = shared;
        self.asking = None;
        grant
    }

    // Notes what the kernel is given.
    fn give(&mut self, to: Kernel, grant: &Grant)
        ensures { self.new ≡ given_to self.old to grant.now }
    {
        let place = usize::from(to.number() - 1);
        self.version = grant.new;
        self.stamp = grant.stamp;
        self.stamps[place] = grant.stamp;
        self.modes[place] = mode_of(grant.on);
        self.given[place] = Some(*grant);
    }

    // Whether the open or move makes the file uncached, or leaves it so.
    fn is_uncached(
        &self,
        cached: bool,
        action: &Action,
        opens: &[Open],
        shared: &[StreamNo],
    ) -> bool
        requires opens { opens.now ≡ opened self.now.opens action.now }
        requires shared { shared.now ≡ sharing self.now.shared action.now }
        ensures { result ≡ is_uncached cached self.now action.now }
    {
        self.uncached
            || !cached
            || is_write_shared(opens)
            || !shared.is_empty()
            || (action.truncates() && !self.opens.is_empty())
    }

    // Decides on an open or a move.
    pub(crate) fn decide(
        &mut self,
        alloc: Global,
        cached: bool,
        action: &Action,
    ) -> Result<Decision, NoMemory>
        requires room { IsTrue (is_roomy self.old) }
        ensures ok { OnOk result (self.new ≡ decided cached self.old action.now) }
        ensures decision { IfOk result (λ decision. decision ≡ decision_of cached self.old action.now) }
        ensures err { OnErr result (self.new ≡ self.old) }
    {
        let opens = opened(alloc, &self.opens, action)?;
        let shared = sharing(alloc, &self.shared, action)?;
        let uncached = self.is_uncached(cached, action, opens.as_slice(), shared.as_slice());
        let calls = self.calls(alloc, uncached, action)?;
        self.uncached = uncached;
        if calls.is_empty() {
            let grant = self.grant(action, opens, shared);
            return Ok(Decision::Grant(grant));
        }
        self.asking = Some(Asking {
            action: *action,
            opens,
            shared,
        });
        self.call_all(calls.as_slice());
        Ok(Decision::CallFirst(calls))
    }

    // Whether a callback to the kernel is out.
    fn is_out(&self, kernel: Kernel) -> bool
        ensures { result ≡ is_out self.now kernel }
    {
        match self.out.get(usize::from(kernel.number() - 1)) {
            Some(mark) => *mark,
            None => false,
        }
    }

    // Whether any callback is out.
    fn is_any_out(&self) -> bool
        ensures { result ≡ is_any_out self.now }
    {
        self.out.iter().any(|mark| *mark)
    }

    // Whether what waits may be granted.
    pub(crate) fn is_ready(&self) -> bool
        ensures { result ≡ is_ready self.now }
    {
        self.is_busy() && !self.is_any_out()
    }

    // The kernel's answer came.
    pub(crate) fn answer(&mut self, kernel: Kernel) -> bool
        ensures file { self.new ≡ answered self.old kernel }
        ensures last { result ≡ is_last self.old kernel }
    {
        let was_out = self.is_out(kernel);
        self.out[usize::from(kernel.number() - 1)] = false;
        if self.is_holder(kernel) {
            self.holder = None;
        }
        was_out && !self.is_any_out()
    }

    // Grants what waits.
    pub(crate) fn settle(&mut self) -> Grant
        requires busy { IsTrue (is_busy self.old) }
        requires ready { IsPrepared self.old }
        ensures file { self.new ≡ settled self.old }
        ensures grant { settled_grant self.old ≡ Some result }
    {
        match self.asking.take() {
            Some(asking) => {
                let action = asking.action;
                self.grant(&action, asking.opens, asking.shared)
            }
            None => unreachable!(),
        }
    }

    // Takes grants of the stream off the kernel, and tells whether no kernel has the file open any more.
    pub(crate) fn close(&mut self, kernel: Kernel, stream: &StreamNo, grants: u32) -> bool
        ensures file { self.new ≡ closed self.old kernel stream.now grants }
        ensures last { result ≡ is_closed self.old kernel stream.now grants }
    {
        take_off(&mut self.opens, stream, kernel, grants);
        if !is_stream_open(self.opens.as_slice(), stream) {
            take_out(&mut self.shared, stream);
        }
        let is_closed = self.opens.is_empty();
        if is_closed {
            self.uncached = false;
        }
        is_closed
    }

    // Whether any kernel has the file open.
    pub(crate) fn is_open(&self) -> bool
        ensures { result ≡ is_any self.now.opens }
    {
        !self.opens.is_empty()
    }

    // How many grants of the stream the kernel has.
    pub(crate) fn count(&self, stream: &StreamNo, kernel: Kernel) -> u32
        ensures { result ≡ count_in (open_at self.now.opens stream.now kernel) }
    {
        count_of(&self.opens, stream, kernel)
    }

    // What the stream was opened for.
    pub(crate) fn mode(&self, stream: &StreamNo) -> Option<Mode>
        ensures { result ≡ stream_mode self.now.opens stream.now }
    {
        stream_mode(self.opens.as_slice(), stream)
    }

    // The grant of a kernel whose last stamp was a callback's, or that has none.
    fn plain(&self, kernel: Kernel) -> Grant
        ensures { result ≡ plain self.now kernel }
    {
        Grant {
            file: self.file,
            stamp: self.stamps[usize::from(kernel.number() - 1)],
            old: self.version,
            new: self.version,
            size: 0,
            on: self.is_on(kernel),
            holder: false,
        }
    }

    // What a request with an old stamp is answered.
    pub(crate) fn current(&self, kernel: Kernel) -> Grant
        ensures { result ≡ current self.now kernel }
    {
        let plain = self.plain(kernel);
        match self.given.get(usize::from(kernel.number() - 1)) {
            Some(Some(grant)) if grant.stamp == plain.stamp => *grant,
            _ => plain,
        }
    }
}

// The mode of a grant.
fn mode_of(on: bool) -> CacheMode
    ensures { result ≡ mode_of_grant on }
{
    if on { CacheMode::On } else { CacheMode::Off }
}
