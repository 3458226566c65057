use crate::seen::{Deed, Seen};
use crate::shapes::{Arrow, Kind};
use crate::span::Span;
use link_plan::Fate;
use sprite_ids::{Kernel, NoMemory, Pid};
use std::alloc::Global;
use std::collections::BTreeMap;
use unix_calls::About;

/// Which kernel a record of a packet is about, beside its own, and for the sake of which process.
#[derive(Clone, Copy)]
pub struct Facing {
    pub other: Option<Kernel>,
    pub pid: Option<Pid>,
}

/// One way of a remote call: to its callee, or back.
#[derive(Clone, Copy)]
struct Way {
    /// The place of the record with which the last packet left.
    left: Option<usize>,
    /// The link made a fault of it, which was no loss.
    odd: bool,
    /// A packet came.
    came: bool,
}

/// A remote call, by its number and its callee's: a broadcast is one to each.
type CallKey = (u32, u8);

#[derive(Clone, Copy)]
struct RemoteCall {
    caller: Kernel,
    callee: Kernel,
    about: Option<About>,
    /// The call that its caller serves by it.
    serves: Option<CallKey>,
    request: Way,
    reply: Way,
}

/// The packets of the records so far (this project).
///
/// A request leaves with its `Send`, or with the `Expire` behind which it is tried again. No record tells when a reply leaves: it is
/// drawn from the last thing that the callee did for the call, as far as the records tell, and that is a guess.
#[derive(Drop)]
pub(crate) struct Packets {
    pub(crate) arrows: Vec<Arrow>,
    calls: BTreeMap<CallKey, RemoteCall>,
    /// The call that each kernel serves, by its number.
    serving: [Option<CallKey>; 17],
    /// The call of which a request was last delivered, by the numbers of its callee and its caller.
    answers: BTreeMap<(u8, u8), CallKey>,
    /// The calls whose request was delivered and whose reply wasn't.
    open: Vec<CallKey>,
    /// The call of which the last record was a try.
    tried: Option<u32>,
    span: Span,
}

impl Packets {
    pub(crate) fn new(alloc: Global, span: Span) -> Packets {
        Packets {
            arrows: Vec::new(alloc),
            calls: BTreeMap::new(alloc),
            serving: [None; 17],
            answers: BTreeMap::new(alloc),
            open: Vec::new(alloc),
            tried: None,
            span,
        }
    }

    /// Takes the record of that place, and says which kernel it is about. The one error is want of memory.
    pub(crate) fn take(&mut self, place: usize, seen: &Seen) -> Result<Facing, NoMemory> {
        let tried = self.tried;
        self.tried = None;
        match seen.deed {
            Deed::Runs => self.serve(seen.kernel, None),
            Deed::Thaws | Deed::Caches { .. } | Deed::Works => self.work(place, seen.kernel),
            Deed::Enters { .. } => self.enter(place, seen),
            Deed::Sends { tx, to } => self.send(place, seen, tx, to)?,
            Deed::Faults { to, fate } => self.fault(place, seen.kernel, to, fate, tried)?,
            Deed::Comes {
                tx,
                from,
                reply: false,
            } => self.come(place, seen.kernel, tx, from)?,
            Deed::Comes {
                tx,
                from,
                reply: true,
            } => self.come_back(place, seen.kernel, tx, from)?,
            Deed::Expires { tx, last } => self.expire(place, seen.kernel, tx, last),
            _ => {}
        }
        Ok(self.facing(seen))
    }

    // Which kernel a record is about.
    fn facing(&self, seen: &Seen) -> Facing {
        match seen.deed {
            Deed::Sends { to, .. } => toward(to, seen.about),
            Deed::Comes { from, .. } => toward(from, seen.about),
            Deed::Faults { to, .. } => toward(to, None),
            Deed::Expires { tx, .. } => match self.try_of(tx) {
                Some(call) => toward(call.callee, call.about),
                None => NOWHERE,
            },
            _ => NOWHERE,
        }
    }

    // A remote call of that number, to the first of its callees.
    fn try_of(&self, tx: u32) -> Option<RemoteCall> {
        for number in 1..17u8 {
            if let Some(call) = self.calls.get(&(tx, number)) {
                return Some(*call);
            }
        }
        None
    }

    // The call that the kernel serves; it goes on with that one.
    fn serve(&mut self, kernel: Kernel, key: Option<CallKey>) {
        self.serving[usize::from(kernel.number())] = key;
    }

    // The kernel did something for the call that it serves, whose reply leaves with it or later.
    fn work(&mut self, place: usize, kernel: Kernel) {
        if let Some(key) = self.serving[usize::from(kernel.number())] {
            self.work_for(place, kernel, key, None);
        }
    }

    // An entry joins the history: what was asked for its call's sake may be answered.
    fn enter(&mut self, place: usize, seen: &Seen) {
        self.work(place, seen.kernel);
        for at in 0..self.open.len() {
            if let Some(key) = self.open.get(at).copied() {
                self.work_for(place, seen.kernel, key, seen.about);
            }
        }
    }

    // The kernel did something for a call, if it is for the sake of that one where one is named.
    fn work_for(&mut self, place: usize, kernel: Kernel, key: CallKey, about: Option<About>) {
        if let Some(call) = self.calls.get_mut(&key) {
            let here = call.callee.number() == kernel.number() && is_about(call.about, about);
            if here && call.reply.left.is_some() && !call.reply.came {
                call.reply.left = Some(place);
            }
        }
    }

    fn send(&mut self, place: usize, seen: &Seen, tx: u32, to: Kernel) -> Result<(), NoMemory> {
        let call = RemoteCall {
            caller: seen.kernel,
            callee: to,
            about: seen.about,
            serves: self.serving[usize::from(seen.kernel.number())],
            request: left_at(Some(place)),
            reply: left_at(None),
        };
        self.calls.insert((tx, to.number()), call)?;
        self.tried = Some(tx);
        Ok(())
    }

    fn expire(&mut self, place: usize, kernel: Kernel, tx: u32, last: bool) {
        self.serve(kernel, None);
        self.tried = Some(tx);
        for number in 1..17u8 {
            if let Some(call) = self.calls.get_mut(&(tx, number)) {
                if !last {
                    call.request.left = Some(place);
                    call.request.odd = false;
                }
            }
        }
    }

    // A request came to the kernel, which serves its call then.
    fn come(
        &mut self,
        place: usize,
        kernel: Kernel,
        tx: u32,
        from: Kernel,
    ) -> Result<(), NoMemory> {
        let key = (tx, kernel.number());
        let Some(call) = self.calls.get(&key).copied() else {
            return Ok(());
        };
        self.arrive(place, kernel, from, Kind::Request, call.about, call.request)?;
        self.serve(kernel, Some(key));
        self.note_request(place, key, call.caller)
    }

    // A reply came to the kernel, which goes on with the call that it served.
    fn come_back(
        &mut self,
        place: usize,
        kernel: Kernel,
        tx: u32,
        from: Kernel,
    ) -> Result<(), NoMemory> {
        let key = (tx, from.number());
        let Some(call) = self.calls.get(&key).copied() else {
            return Ok(());
        };
        self.arrive(place, kernel, from, Kind::Reply, call.about, call.reply)?;
        self.serve(kernel, call.serves);
        self.note_reply(key);
        Ok(())
    }

    // A packet that left so came to the kernel.
    fn arrive(
        &mut self,
        place: usize,
        kernel: Kernel,
        from: Kernel,
        kind: Kind,
        about: Option<About>,
        way: Way,
    ) -> Result<(), NoMemory> {
        let Some(first) = way.left else {
            return Ok(());
        };
        self.keep(Arrow {
            kind,
            repeated: way.odd || way.came,
            pid: pid_of(about),
            first,
            source: from,
            start: 0,
            last: place,
            target: kernel,
            end: 0,
        })
    }

    // A request of that call was delivered: its reply leaves with this record or later.
    fn note_request(&mut self, place: usize, key: CallKey, caller: Kernel) -> Result<(), NoMemory> {
        self.answers.insert((key.1, caller.number()), key)?;
        let Some(call) = self.calls.get_mut(&key) else {
            return Ok(());
        };
        call.request.came = true;
        call.reply.left = Some(place);
        if !call.reply.came && !self.open.as_slice().contains(&key) {
            self.open.push(key)?;
        }
        Ok(())
    }

    // A reply of that call was delivered.
    fn note_reply(&mut self, key: CallKey) {
        if let Some(call) = self.calls.get_mut(&key) {
            call.reply.came = true;
        }
        self.open.retain(|other| *other != key);
    }

    // The link made a fault of a packet to that kernel, which the record before tells of: a try of a call, or else the reply to the call
    // that was last delivered from there.
    fn fault(
        &mut self,
        place: usize,
        kernel: Kernel,
        to: Kernel,
        fate: Fate,
        tried: Option<u32>,
    ) -> Result<(), NoMemory> {
        let request = match tried {
            Some(tx) => self.calls.contains_key(&(tx, to.number())),
            None => false,
        };
        let key = match tried {
            Some(tx) if request => Some((tx, to.number())),
            _ => self.answers.get(&(kernel.number(), to.number())).copied(),
        };
        match fate {
            Fate::Lost => self.lose(place, kernel, to, key),
            _ => {
                self.turn_odd(key, request);
                Ok(())
            }
        }
    }

    fn lose(
        &mut self,
        place: usize,
        kernel: Kernel,
        to: Kernel,
        key: Option<CallKey>,
    ) -> Result<(), NoMemory> {
        let about = match key {
            Some(key) => match self.calls.get(&key) {
                Some(call) => call.about,
                None => None,
            },
            None => None,
        };
        self.keep(Arrow {
            kind: Kind::Lost,
            repeated: false,
            pid: pid_of(about),
            first: place.saturating_sub(1),
            source: kernel,
            start: 0,
            last: place,
            target: to,
            end: 0,
        })
    }

    fn turn_odd(&mut self, key: Option<CallKey>, request: bool) {
        let Some(key) = key else {
            return;
        };
        if let Some(call) = self.calls.get_mut(&key) {
            if request {
                call.request.odd = true;
            } else {
                call.reply.odd = true;
            }
        }
    }

    fn keep(&mut self, arrow: Arrow) -> Result<(), NoMemory> {
        if self.span.touches(arrow.first, arrow.last) {
            self.arrows.extend_from_slice(&[arrow])?;
        }
        Ok(())
    }
}

const NOWHERE: Facing = Facing {
    other: None,
    pid: None,
};

fn toward(other: Kernel, about: Option<About>) -> Facing {
    Facing {
        other: Some(other),
        pid: pid_of(about),
    }
}

fn pid_of(about: Option<About>) -> Option<Pid> {
    Some(about?.pid)
}

fn left_at(left: Option<usize>) -> Way {
    Way {
        left,
        odd: false,
        came: false,
    }
}

// Whether a call is for the sake of another one, where one is named.
fn is_about(call: Option<About>, named: Option<About>) -> bool {
    match (call, named) {
        (_, None) => true,
        (Some(call), Some(named)) => {
            call.pid.number() == named.pid.number() && call.number == named.number
        }
        (None, Some(_)) => false,
    }
}
