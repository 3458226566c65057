ghost use Rattle.std.specs.Prelude.{◌≡◌, ◌+◌, ◌&&◌, ◌++◌, ◌∷◌, [], IfOk, OnOk, filter, not, if◌then◌else◌};
ghost use Rattle.file_views.specs.Views.{kernels, last_stamp};
ghost use Rattle.file_views.specs.Grants.{asks, truncates, receiver_of, receiver, asks_to_write, left_by, opens_after, shared_after, uncached_after, is_stopped, is_recalled, is_called, kind_of_calls, called_kernels, mode_called, stamped, call_out, call_back, new_version, grant_of, granting, holder_after, given_to, settling, settle, told, deciding, decide, plain_grant, current_in, current_grant};
ghost use Rattle.file_views.specs.Entries.{enters_settled, enters_deciding};
ghost use Rattle.file_coherence.specs.Parts.{newly_shared};
ghost use Rattle.file_views.specs.Streams.{is_any};

use crate::clients::{is_on, mode_of};
use crate::contents::numbers_from;
use crate::data::{counted, note};
use crate::limits::{Limits, next, small};
use crate::lists::{place, put_at};
use crate::streams::{
    add_open, has_open, has_stream, is_any, is_write_shared, mode_of_stream, take_off, writes,
};
use crate::views::{
    answer, begin, current_stamp, grant_given, is_holder, last_given, mode_given, server,
};
use file_views::{Entered, FileBody, FileCall, FileGrant, FileStep, Open, View};
use sprite_ids::{Bytes, CacheMode, CallKind, Copying, Items, Kernel, NoMemory, StreamNo};
use std::alloc::Global;

// Whether a request asks for a grant: an open or a move.
pub(crate) fn asks(body: &FileBody) -> bool
    ensures { result ≡ asks body.now }
{
    match body {
        FileBody::Opening { .. } => true,
        FileBody::Move { .. } => true,
        _ => false,
    }
}

// Whether it empties the file.
fn truncates(body: &FileBody) -> bool
    ensures { result ≡ truncates body.now }
{
    match body {
        FileBody::Opening { truncate, .. } => *truncate,
        _ => false,
    }
}

// The kernel that receives the grant: of an open the one that opens, of a move the target.
fn receiver(one: &FileCall) -> Kernel
    ensures { result ≡ receiver one.now }
{
    match &one.body {
        FileBody::Move { to, .. } => *to,
        _ => one.from,
    }
}

// Whether that kernel gets the stream for writing.
fn asks_to_write(opens: &[Open], body: &FileBody) -> bool
    ensures { result ≡ asks_to_write opens.now body.now }
{
    match body {
        FileBody::Opening { mode, .. } => writes(*mode),
        FileBody::Move { stream, .. } => writes(mode_of_stream(opens, stream)),
        _ => false,
    }
}

fn copy_opens(alloc: Global, opens: &[Open]) -> Result<Items<Open>, NoMemory>
    ensures { IfOk result (λ copy. copy ≡ opens.now) }
{
    let mut copy = Items::new(alloc);
    copy.append(opens)?;
    Ok(copy)
}

// A move that leaves no references first takes its grants off the source.
fn left_by(
    alloc: Global,
    opens: &[Open],
    stream: &StreamNo,
    source: Kernel,
    kept: bool,
    grants: u32,
) -> Result<Items<Open>, NoMemory>
    ensures { IfOk result (λ left. left ≡ left_by opens.now stream.now source kept grants) }
{
    if kept {
        copy_opens(alloc, opens)
    } else {
        take_off(alloc, opens, stream, source, grants)
    }
}

// The opens that an open or a move leads to.
fn opens_after(
    alloc: Global,
    opens: &[Open],
    source: Kernel,
    body: &FileBody,
) -> Result<Items<Open>, NoMemory>
    ensures { IfOk result (λ after. after ≡ opens_after opens.now source body.now) }
{
    match body {
        FileBody::Opening { stream, mode, .. } => {
            let mut after = copy_opens(alloc, opens)?;
            add_open(alloc, &mut after, stream, source, *mode)?;
            Ok(after)
        }
        FileBody::Move {
            stream,
            to,
            kept,
            grants,
        } => {
            let mut after = left_by(alloc, opens, stream, source, *kept, *grants)?;
            add_open(
                alloc,
                &mut after,
                stream,
                *to,
                mode_of_stream(opens, stream),
            )?;
            Ok(after)
        }
        _ => copy_opens(alloc, opens),
    }
}

// The shared streams that it leads to.
fn shared_after(
    alloc: Global,
    shared: &[StreamNo],
    body: &FileBody,
) -> Result<Items<StreamNo>, NoMemory>
    ensures { IfOk result (λ after. after ≡ shared_after shared.now body.now) }
{
    let mut after = Items::new(alloc);
    after.append(shared)?;
    if let Some(stream) = newly_shared(shared, body) {
        after.append(&[stream])?;
    }
    Ok(after)
}

fn newly_shared(shared: &[StreamNo], body: &FileBody) -> Option<StreamNo>
    ensures { result ≡ newly_shared shared.now body.now }
{
    match body {
        FileBody::Move { stream, kept, .. } => {
            let known = has_stream(stream, shared);
            if *kept && !known { Some(*stream) } else { None }
        }
        _ => None,
    }
}

// Whether an open or a move makes the file uncached, or it is so: by write sharing, a shared stream, or a truncation while it is
// open, until no kernel has it open (Nelson, Welch and Ousterhout 1988).
fn uncached_after(
    alloc: Global,
    limits: &Limits,
    view: &View,
    one: &FileCall,
) -> Result<bool, NoMemory>
    ensures { IfOk result (λ uncached. uncached ≡ uncached_after limits.now view.now one.now) }
{
    let shared = shared_after(alloc, view.shared.as_slice(), &one.body)?;
    let opens = opens_after(alloc, view.opens.as_slice(), one.from, &one.body)?;
    let any_shared = is_any(shared.as_slice());
    let written = is_write_shared(opens.as_slice());
    let emptied = is_emptied(view, one);
    Ok(view.uncached || (!limits.cached() || (any_shared || (written || emptied))))
}

// Whether it is a truncation while the file is open.
fn is_emptied(view: &View, one: &FileCall) -> bool
    ensures { result ≡ (truncates one.now.body && is_any view.now.opens) }
{
    truncates(&one.body) && is_any(view.opens.as_slice())
}

// Where the file is uncached, each kernel is stopped whose given mode is On, and by a truncation each that has the file open.
fn is_stopped(view: &View, one: &FileCall, kernel: Kernel) -> bool
    ensures { result ≡ is_stopped view.now one.now kernel }
{
    let open = has_open(view.opens.as_slice(), kernel);
    is_on(mode_given(view, kernel)) || (truncates(&one.body) && open)
}

// Where it isn't, the blocks are recalled from the holder, unless that is the receiver and nothing is truncated.
fn is_recalled(view: &View, one: &FileCall, kernel: Kernel) -> bool
    ensures { result ≡ is_recalled view.now one.now kernel }
{
    let other = receiver(one) != kernel;
    is_holder(view, kernel) && (truncates(&one.body) || other)
}

// Whether a decision calls the kernel back.
fn is_called(uncached: bool, view: &View, one: &FileCall, kernel: Kernel) -> bool
    ensures { result ≡ is_called uncached view.now one.now kernel }
{
    if uncached {
        is_stopped(view, one, kernel)
    } else {
        is_recalled(view, one, kernel)
    }
}

// How it calls kernels back.
fn kind_of_calls(uncached: bool) -> CallKind
    ensures { result ≡ kind_of_calls uncached }
{
    if uncached {
        CallKind::Stop
    } else {
        CallKind::Recall
    }
}

// The kernels that a decision calls back, in ascending order.
fn called_kernels(
    alloc: Global,
    view: &View,
    one: &FileCall,
    uncached: bool,
) -> Result<Items<Kernel>, NoMemory>
    ensures { IfOk result (λ called. called ≡ filter (is_called uncached view.now one.now) (kernels view.now)) }
{
    let numbers = numbers_from(alloc, 1, view.clients.len())?;
    let mut called = Items::new(alloc);
    for number in numbers.as_slice() {
        let kernel = kernel_of(*number)?;
        if is_called(uncached, view, one, kernel) {
            called.append(&[kernel])?;
        }
    }
    Ok(called)
}

fn kernel_of(number: usize) -> Result<Kernel, NoMemory>
    ensures { IfOk result (λ kernel. kernel ≡ number) }
{
    let number = u8::try_from(number).or(Err(NoMemory))?;
    Kernel::new(number).ok_or(NoMemory)
}

// The mode given to a kernel after a callback.
fn mode_called(mode: CacheMode, kind: CallKind) -> CacheMode
    ensures { result ≡ mode_called mode kind }
{
    match kind {
        CallKind::Recall => mode,
        CallKind::Stop => CacheMode::Off,
    }
}

// A callback goes out with the next stamp, which becomes the current one of its kernel.
fn call_out(view: &mut View, kind: CallKind, kernel: Kernel) -> Result<(), NoMemory>
    ensures { OnOk result (view.new ≡ call_out view.old kind kernel) }
{
    let stamp = next(last_given(view))?;
    stamp_called(view, kind, kernel, stamp);
    begin(
        view,
        server(),
        kernel,
        FileBody::Callback { stamp, kind },
        None,
    )
}

fn stamp_called(view: &mut View, kind: CallKind, kernel: Kernel, stamp: u32)
    requires { stamp ≡ last_stamp view.old + 1 }
    ensures { view.new ≡ stamped view.old kind kernel }
{
    let mode = mode_called(mode_given(view, kernel), kind);
    put_at(&mut view.stamps, place(kernel), stamp);
    put_at(&mut view.modes, place(kernel), mode);
}

// Callbacks to these kernels go out in a row.
fn call_back(kernels: &[Kernel], kind: CallKind, view: &mut View) -> Result<(), NoMemory>
    ensures { OnOk result (view.new ≡ call_back kernels.now kind view.old) }
{
    for kernel in kernels {
        call_out(view, kind, *kernel)?;
    }
    Ok(())
}

// The version rises at a truncation, and at an open for writing by a kernel that isn't the holder (Nelson, Welch and
// Ousterhout 1988).
fn new_version(view: &View, one: &FileCall) -> Result<u32, NoMemory>
    ensures { IfOk result (λ version. version ≡ new_version view.now one.now) }
{
    let writes = asks_to_write(view.opens.as_slice(), &one.body);
    let holder = is_holder(view, receiver(one));
    if truncates(&one.body) || (writes && !holder) {
        next(view.version)
    } else {
        Ok(view.version)
    }
}

// The grant of an open or a move.
fn grant_of(view: &View, one: &FileCall) -> Result<FileGrant, NoMemory>
    ensures { IfOk result (λ grant. grant ≡ grant_of view.now one.now) }
{
    let truncate = truncates(&one.body);
    let new = new_version(view, one)?;
    let size = small(view.bytes.len())?;
    Ok(FileGrant {
        stamp: next(last_given(view))?,
        old: if truncate { new } else { view.version },
        new,
        size: if truncate { 0 } else { size },
        on: !view.uncached,
        holder: is_holder(view, receiver(one)),
    })
}

// What an open, and what a move is answered with its grant.
fn granting(body: &FileBody, grant: &FileGrant) -> FileBody
    ensures { result ≡ granting body.now grant.now }
{
    match body {
        FileBody::Move { .. } => FileBody::Moved {
            grant: Some(*grant),
            grants: 1,
        },
        _ => FileBody::Opened { grant: *grant },
    }
}

// The holder after a grant: one for writing by which the kernel may cache makes it the holder.
fn holder_after(holder: Option<Kernel>, kernel: Kernel, becomes: bool) -> Option<Kernel>
    ensures { result ≡ holder_after holder kernel becomes }
{
    if becomes { Some(kernel) } else { holder }
}

// The grant is given to the kernel.
fn give(view: &mut View, kernel: Kernel, grant: &FileGrant)
    ensures { view.new ≡ given_to view.old kernel grant.now }
{
    view.version = grant.new;
    put_at(&mut view.stamps, place(kernel), grant.stamp);
    put_at(&mut view.modes, place(kernel), mode_of(grant.on));
    let given = FileGrant { size: 0, ..*grant };
    put_at(&mut view.given, place(kernel), Some(given));
}

// The bytes after an open: none after a truncation.
fn empty_if(alloc: Global, bytes: &mut Bytes, emptied: bool)
    ensures { bytes.new ≡ (if emptied then [] else bytes.old) }
{
    if emptied {
        *bytes = Bytes::new(alloc);
    }
}

// An open or a move is granted, with no callback out, before it is answered.
fn settle_view(
    alloc: Global,
    view: &mut View,
    one: &FileCall,
    grant: &FileGrant,
) -> Result<(), NoMemory>
    requires { grant.now ≡ grant_of view.old one.now }
    ensures { OnOk result (view.new ≡ settling view.old one.now) }
{
    let writes = asks_to_write(view.opens.as_slice(), &one.body) && !view.uncached;
    let opens = opens_after(alloc, view.opens.as_slice(), one.from, &one.body)?;
    let shared = shared_after(alloc, view.shared.as_slice(), &one.body)?;
    let kernel = receiver(one);
    give(view, kernel, grant);
    empty_if(alloc, &mut view.bytes, truncates(&one.body));
    view.holder = holder_after(view.holder, kernel, writes);
    view.opens = opens;
    view.shared = shared;
    Ok(())
}

// An open or a move is granted and answered.
fn settle(alloc: Global, view: &mut View, one: &FileCall) -> Result<(), NoMemory>
    ensures { OnOk result (view.new ≡ settle view.old one.now) }
{
    let grant = grant_of(view, one)?;
    settle_view(alloc, view, one, &grant)?;
    answer(alloc, view, one, granting(&one.body, &grant))
}

// Notes an open that is granted.
fn note_settled(alloc: Global, one: &FileCall, entered: &mut Items<Entered>) -> Result<(), NoMemory>
    ensures { OnOk result (entered.new ≡ entered.old ++ enters_settled one.now one.now.body) }
{
    match &one.body {
        FileBody::Opening {
            pid,
            number,
            stream,
            mode,
            truncate,
        } => {
            let step = FileStep::Opening {
                pid: *pid,
                number: *number,
                kernel: one.from,
                stream: *stream,
                mode: *mode,
                truncate: *truncate,
            };
            note(entered, server(), step, counted(alloc, 0))
        }
        _ => Ok(()),
    }
}

// An open or a move is granted; an open takes effect.
pub(crate) fn grant(
    alloc: Global,
    view: &mut View,
    one: &FileCall,
    entered: &mut Items<Entered>,
) -> Result<(), NoMemory>
    ensures view { OnOk result (view.new ≡ settle view.old one.now) }
    ensures entered { OnOk result (entered.new ≡ entered.old ++ enters_settled one.now one.now.body) }
{
    settle(alloc, view, one)?;
    note_settled(alloc, one, entered)
}

// With nobody to call back the open or move is granted at once; else it waits until the callbacks are answered.
fn decide_called(
    alloc: Global,
    view: &mut View,
    one: &FileCall,
    kind: CallKind,
    called: &[Kernel],
    entered: &mut Items<Entered>,
) -> Result<(), NoMemory>
    ensures view { OnOk result (view.new ≡ deciding view.old one.now kind called.now) }
    ensures entered { OnOk result (entered.new ≡ entered.old ++ enters_deciding one.now called.now) }
{
    if called.is_empty() {
        return grant(alloc, view, one, entered);
    }
    call_back(called, kind, view)
}

// Decides on an open or a move.
pub(crate) fn decide(
    alloc: Global,
    limits: &Limits,
    view: &mut View,
    one: &FileCall,
    entered: &mut Items<Entered>,
) -> Result<(), NoMemory>
    ensures view { OnOk result (view.new ≡ decide limits.now view.old one.now) }
    ensures entered { OnOk result (entered.new ≡ entered.old ++ enters_deciding one.now (called_kernels limits.now view.old one.now)) }
{
    let uncached = uncached_after(alloc, limits, view, one)?;
    let called = called_kernels(alloc, view, one, uncached)?;
    view.uncached = uncached;
    decide_called(
        alloc,
        view,
        one,
        kind_of_calls(uncached),
        called.as_slice(),
        entered,
    )
}

// What a kernel is told whose stamp isn't that of a grant: its current stamp and mode.
fn plain_grant(view: &View, kernel: Kernel) -> Result<FileGrant, NoMemory>
    ensures { IfOk result (λ grant. grant ≡ plain_grant view.now kernel) }
{
    Ok(FileGrant {
        stamp: current_stamp(view, kernel),
        old: view.version,
        new: view.version,
        size: small(view.bytes.len())?,
        on: is_on(mode_given(view, kernel)),
        holder: false,
    })
}

// What a request with an old stamp is answered with: the grant given last, where its stamp is the current one.
pub(crate) fn current_grant(view: &View, kernel: Kernel) -> Result<FileGrant, NoMemory>
    ensures { IfOk result (λ grant. grant ≡ current_grant view.now kernel) }
{
    match grant_given(view, kernel) {
        Some(grant) => current_in(view, kernel, &grant),
        None => plain_grant(view, kernel),
    }
}

fn current_in(view: &View, kernel: Kernel, grant: &FileGrant) -> Result<FileGrant, NoMemory>
    ensures { IfOk result (λ current. current ≡ current_in view.now kernel (Some grant.now)) }
{
    if grant.stamp != current_stamp(view, kernel) {
        return plain_grant(view, kernel);
    }
    let size = small(view.bytes.len())?;
    Ok(FileGrant { size, ..*grant })
}
