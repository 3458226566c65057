ghost use Rattle.std.specs.Prelude.{◌≡◌, ◌<◌, ◌^◌, ◌==◌, is_some, length, map, slice_get, slice_index_or};
ghost use Rattle.std.specs.List.{filter, list_any};
ghost use Rattle.kernel_rpc.specs.Machine.{due_of, holds, is_at_port, is_due, is_punctual, is_taken, may_come, part_of};
ghost use Rattle.kernel_rpc.specs.States.{state_in, state_past, was_begun};
ghost use Rattle.kernel_rpc.specs.Table.{counts_of, machine_of};

use crate::call::{Call, CallState, PacketCopy};
use crate::calls::is_taken;
use crate::receivers::{is_holding, part_of};
use crate::table::CallTable;
use sprite_ids::{CopyNo, Kernel, TxNo};

// How many of the copies may come to the kernel next.
pub(crate) fn copies_offered(copies: &[PacketCopy], kernel: Kernel) -> usize
    ensures count { result ≡ length (filter (may_come kernel (list_any (is_punctual kernel) copies.now)) copies.now) }
    ensures few { result < 2 ^ 63 }
{
    count_coming(copies, kernel, has_punctual(copies, kernel))
}

// How many of the copies may come to the kernel next, by whether one for it isn't late.
fn count_coming(copies: &[PacketCopy], kernel: Kernel, punctual: bool) -> usize
    ensures count { result ≡ length (filter (may_come kernel punctual) copies.now) }
    ensures few { result < 2 ^ 63 }
{
    let mut count = 0;
    for copy in copies {
        if may_come(kernel, punctual, copy) {
            count += 1;
        }
    }
    count
}

// The copy at that place of those that may come to the kernel next.
pub(crate) fn copy_offered(copies: &[PacketCopy], kernel: Kernel, place: usize) -> Option<CopyNo>
    ensures { result ≡ slice_get (map (λ copy. copy.number) (filter (may_come kernel (list_any (is_punctual kernel) copies.now)) copies.now)) place }
{
    coming_at(copies, kernel, has_punctual(copies, kernel), place)
}

// The copy at that place of those that may come to the kernel next, by whether one for it isn't late.
fn coming_at(copies: &[PacketCopy], kernel: Kernel, punctual: bool, place: usize) -> Option<CopyNo>
    ensures { result ≡ slice_get (map (λ copy. copy.number) (filter (may_come kernel punctual) copies.now)) place }
{
    let mut left = place;
    for copy in copies {
        if may_come(kernel, punctual, copy) {
            if left == 0 {
                return Some(copy.number);
            }
            left -= 1;
        }
    }
    None
}

// Whether the copy is for the kernel and isn't late.
fn is_punctual(kernel: Kernel, copy: &PacketCopy) -> bool
    ensures { result ≡ is_punctual kernel copy.now }
{
    copy.to == kernel && !copy.late
}

// Whether the copy may come to the kernel next, by whether one for it isn't late.
fn may_come(kernel: Kernel, punctual: bool, copy: &PacketCopy) -> bool
    ensures { result ≡ may_come kernel punctual copy.now }
{
    copy.to == kernel && (!copy.late || !punctual)
}

// Whether a copy for the kernel isn't late.
fn has_punctual(copies: &[PacketCopy], kernel: Kernel) -> bool
    ensures { result ≡ list_any (is_punctual kernel) copies.now }
{
    for copy in copies {
        if is_punctual(kernel, copy) {
            return true;
        }
    }
    false
}

// Whether one of the calls is of that kernel and port.
pub(crate) fn is_used(calls: &[Call], kernel: Kernel, port: u32) -> bool
    ensures { result ≡ list_any (is_at_port kernel port) calls.now }
{
    for call in calls {
        if is_at_port(kernel, port, call) {
            return true;
        }
    }
    false
}

// Whether the call is one of that kernel and port.
fn is_at_port(kernel: Kernel, port: u32, call: &Call) -> bool
    ensures { result ≡ is_at_port kernel port call.now }
{
    call.from == kernel && call.port == port
}

// Whether the timer of the call that stands there may fire.
pub(crate) fn is_due(table: &CallTable, at: usize, call: &Call) -> bool
    requires inside { at < length table.now.unfinished.items }
    requires there { call.now ≡ slice_index_or table.now.unfinished.items at call.now }
    requires counted { table.now.flying.items ≡ counts_of table.now.copies.items table.now.unfinished.items }
    ensures { result ≡ is_due table.now.copies.items call.now }
{
    table.flying[at] == 0 && !is_taken(call)
}

// How many timers of the kernel may fire.
pub(crate) fn timers_due(table: &CallTable, kernel: Kernel) -> usize
    requires { table.now.flying.items ≡ counts_of table.now.copies.items table.now.unfinished.items }
    ensures count { result ≡ length (due_of (machine_of table.now) kernel) }
    ensures few { result < 2 ^ 63 }
{
    let mut count = 0;
    for at in 0..table.unfinished.len() {
        let call = &table.unfinished[at];
        if call.from == kernel && is_due(table, at, call) {
            count += 1;
        }
    }
    count
}

// The call at that place of those of the kernel whose timer may fire.
pub(crate) fn timer_due(table: &CallTable, kernel: Kernel, place: usize) -> Option<TxNo>
    requires { table.now.flying.items ≡ counts_of table.now.copies.items table.now.unfinished.items }
    ensures { result ≡ slice_get (due_of (machine_of table.now) kernel) place }
{
    let mut left = place;
    for at in 0..table.unfinished.len() {
        let call = &table.unfinished[at];
        if call.from == kernel && is_due(table, at, call) {
            if left == 0 {
                return Some(call.tx);
            }
            left -= 1;
        }
    }
    None
}

// Whether a timer may fire.
pub(crate) fn has_due(table: &CallTable) -> bool
    requires { table.now.flying.items ≡ counts_of table.now.copies.items table.now.unfinished.items }
    ensures { result ≡ list_any (is_due table.now.copies.items) table.now.unfinished.items }
{
    for at in 0..table.unfinished.len() {
        if is_due(table, at, &table.unfinished[at]) {
            return true;
        }
    }
    false
}

// Whether the kernel has the request of the call.
pub(crate) fn has_request(call: &Call, kernel: Kernel) -> bool
    ensures { result ≡ holds (part_of kernel call.now.receivers) }
{
    match part_of(call.receivers.as_slice(), kernel) {
        Some(part) => is_holding(part),
        None => false,
    }
}

// How an unfinished call stands.
pub(crate) fn state_in(call: &Call) -> CallState
    ensures { result ≡ state_in (is_some call.now.reply) (is_taken call.now) }
{
    if call.reply.is_some() {
        CallState::Answered
    } else if is_taken(call) {
        CallState::Taken
    } else {
        CallState::Sent
    }
}

// How a call stands that isn't among the unfinished ones.
pub(crate) fn state_past(table: &CallTable, tx: TxNo) -> Option<CallState>
    ensures { result ≡ state_past (list_any (λ given. given.0 == tx.0) table.now.given_up.items) (was_begun table.now.begun tx) }
{
    if was_given_up(table.given_up.as_slice(), tx) {
        return Some(CallState::GivenUp);
    }
    if was_begun(table.begun, tx) {
        return Some(CallState::Done);
    }
    None
}

// Whether the call is among those that were given up.
fn was_given_up(given_up: &[TxNo], tx: TxNo) -> bool
    ensures { result ≡ list_any (λ given. given.0 == tx.0) given_up.now }
{
    given_up.iter().any(|given| *given == tx)
}

// Whether a call of that number is one of so many.
fn was_begun(begun: u32, tx: TxNo) -> bool
    ensures { result ≡ was_begun begun tx }
{
    1 <= tx.0 && tx.0 <= begun
}
