ghost use Rattle.std.specs.Prelude.{◌≡◌, IfOk, OnOk};
ghost use Rattle.client_moves.specs.Paging.{answers_on, answers_with_pages, fetches_for_answer, forks_on, goes_on, has_bytes, has_page, is_away, kept_reply, lacks, lacks_in, named_by, named_in, needs_page, page_comes, page_for, page_in, page_named, reply_in, waits_for_page, with_page_in};

use crate::evicting::is_ready_in;
use crate::returning::between_calls;
use client_homes::{ClientProcs, Proc, ProcState};
use packet_bodies::ReplyBody;
use process_machine::{BurstEnd, Image, Program, Reply, burst};
use sprite_ids::{Bytes, Copying, NoMemory, Pid, TxNo};
use std::alloc::Global;
use unix_calls::ProgramLine;

/// For what a page of a process was fetched.
#[derive(Clone, Copy, Debug, PartialEq, Eq)]
pub(crate) enum PageFor {
    /// For nothing: no process that is here waits for it.
    Nothing,
    /// For its next instruction.
    Burst(u8),
    /// For its `fork`.
    Fork(u8),
    /// For the reply of its own `migrate`.
    Answer(u8),
}

/// A process that is between two calls came to a page that is away: it is fetched (Nelson, Welch and Ousterhout 1988). Where no
/// such process is here, or the page isn't one of its image's that are away, nothing is done. The one error is want of memory,
/// which is also the answer where no number is left for a remote call.
///
/// Of places: what `fetch_page` says.
pub fn page_needed(
    client: &mut ClientProcs,
    alloc: Global,
    pid: Pid,
    page: u8,
) -> Result<(), NoMemory>
    ensures { OnOk result (client.new ≡ needs_page pid page client.old) }
{
    if !lacks(client, pid, page) {
        return Ok(());
    }
    wait_for_page(client, alloc, pid, page)
}

// Whether the process is between two calls, and that page is away.
fn lacks(client: &ClientProcs, pid: Pid, page: u8) -> bool
    ensures { result ≡ lacks pid page client.now }
{
    match client.procs.get(&pid) {
        Some(proc) => lacks_in(proc, page),
        None => false,
    }
}

fn lacks_in(proc: &Proc, page: u8) -> bool
    ensures { result ≡ lacks_in page proc.now }
{
    is_ready_in(&proc.state) && is_away(&proc.image, page)
}

fn is_away(image: &Image, page: u8) -> bool
    ensures { result ≡ is_away page image.now.pages }
{
    page < image.page_count() && image.page(page).is_none()
}

fn wait_for_page(
    client: &mut ClientProcs,
    alloc: Global,
    pid: Pid,
    page: u8,
) -> Result<(), NoMemory>
    ensures { OnOk result (client.new ≡ waits_for_page pid page client.old) }
{
    let tx = client.fetch_page(alloc, pid, page)?;
    client.set_state(pid, ProcState::PageWait { tx, page });
    Ok(())
}

/// A page of the process was fetched, for its next instruction, for its `fork` or for the reply of its `migrate`: it goes on, or meets
/// a kill that has come meanwhile. Where the process waits for no page of that remote call, nothing is done. The one error is want of
/// memory, which is also the answer where a counter has come to its limit.
///
/// Of places: the page is in the process's image, and was in the answer; and what `between_calls` and `issue_home` say.
pub fn page_came(
    client: &mut ClientProcs,
    alloc: Global,
    pid: Pid,
    tx: TxNo,
    body: &ReplyBody,
) -> Result<(), NoMemory>
    ensures { OnOk result (client.new ≡ page_comes pid tx body.now client.old) }
{
    match page_for(client, pid, tx) {
        PageFor::Burst(page) => go_on(client, alloc, pid, page, body),
        PageFor::Fork(page) => fork_on(client, alloc, pid, page, body),
        PageFor::Answer(page) => answer_on(client, alloc, pid, page, body),
        PageFor::Nothing => Ok(()),
    }
}

fn go_on(
    client: &mut ClientProcs,
    alloc: Global,
    pid: Pid,
    page: u8,
    body: &ReplyBody,
) -> Result<(), NoMemory>
    ensures { OnOk result (client.new ≡ goes_on pid page body.now client.old) }
{
    put_page(client, alloc, pid, page, body)?;
    client.set_state(pid, ProcState::Ready);
    between_calls(client, alloc, pid)
}

fn fork_on(
    client: &mut ClientProcs,
    alloc: Global,
    pid: Pid,
    page: u8,
    body: &ReplyBody,
) -> Result<(), NoMemory>
    ensures { OnOk result (client.new ≡ forks_on pid page body.now client.old) }
{
    put_page(client, alloc, pid, page, body)?;
    client.issue_home(alloc, pid)
}

fn answer_on(
    client: &mut ClientProcs,
    alloc: Global,
    pid: Pid,
    page: u8,
    body: &ReplyBody,
) -> Result<(), NoMemory>
    ensures { OnOk result (client.new ≡ answers_on pid page body.now client.old) }
{
    put_page(client, alloc, pid, page, body)?;
    match kept_reply(client, alloc, pid)? {
        Some(reply) => answer_with_pages(client, alloc, pid, reply),
        None => Ok(()),
    }
}

// The reply that the process is given when its pages are here.
fn kept_reply(client: &ClientProcs, alloc: Global, pid: Pid) -> Result<Option<Reply>, NoMemory>
    ensures { IfOk result (λ reply. reply ≡ kept_reply pid client.now) }
{
    match client.procs.get(&pid) {
        Some(proc) => reply_in(alloc, &proc.state),
        None => Ok(None),
    }
}

fn reply_in(alloc: Global, state: &ProcState) -> Result<Option<Reply>, NoMemory>
    ensures { IfOk result (λ reply. reply ≡ reply_in state.now) }
{
    match state {
        ProcState::AnswerPages { reply, .. } => Ok(Some(reply.copy(alloc)?)),
        _ => Ok(None),
    }
}

/// The call that the process is in is answered when the pages are here that the call at which its image stands names: they are
/// fetched one after the other (Nelson, Welch and Ousterhout 1988; Douglis and Ousterhout 1991). The one error is want of memory,
/// which is also the answer where no number is left for a remote call.
///
/// Of places: what `fetch_page` says.
pub fn answer_with_pages(
    client: &mut ClientProcs,
    alloc: Global,
    pid: Pid,
    reply: Reply,
) -> Result<(), NoMemory>
    ensures { OnOk result (client.new ≡ answers_with_pages pid reply client.old) }
{
    match page_named(client, alloc, pid)? {
        Some(page) => fetch_for_answer(client, alloc, pid, page, reply),
        None => client.reply(pid, reply),
    }
}

fn fetch_for_answer(
    client: &mut ClientProcs,
    alloc: Global,
    pid: Pid,
    page: u8,
    reply: Reply,
) -> Result<(), NoMemory>
    ensures { OnOk result (client.new ≡ fetches_for_answer pid page reply client.old) }
{
    let tx = client.fetch_page(alloc, pid, page)?;
    client.set_state(pid, ProcState::AnswerPages { tx, page, reply });
    Ok(())
}

// The first page that is away of those that the next instruction of the process names.
fn page_named(client: &ClientProcs, alloc: Global, pid: Pid) -> Result<Option<u8>, NoMemory>
    ensures { IfOk result (λ page. page ≡ page_named pid client.now) }
{
    match client.procs.get(&pid) {
        Some(proc) => named_in(alloc, client.programs.as_slice(), &proc.image),
        None => Ok(None),
    }
}

fn named_in(alloc: Global, programs: &[ProgramLine], image: &Image) -> Result<Option<u8>, NoMemory>
    ensures { IfOk result (λ page. page ≡ named_in programs.now image.now) }
{
    let number = image.program_number();
    if number == 0 {
        return Ok(None);
    }
    match programs.get(usize::from(number - 1)) {
        Some(line) => named_by(alloc, &line.program, image),
        None => Ok(None),
    }
}

// A copy of the image tries its next instruction.
fn named_by(alloc: Global, program: &Program, image: &Image) -> Result<Option<u8>, NoMemory>
    ensures { IfOk result (λ page. page ≡ named_by program.now image.now) }
{
    let mut copy = image.copy(alloc)?;
    match burst(program, &mut copy, 1).1 {
        BurstEnd::PageNeeded(page) => Ok(Some(page)),
        BurstEnd::Call => Ok(None),
        BurstEnd::BadStep => Ok(None),
        BurstEnd::Limit => Ok(None),
    }
}

fn page_for(client: &ClientProcs, pid: Pid, tx: TxNo) -> PageFor
    ensures { result ≡ page_for pid tx client.now }
{
    match client.procs.get(&pid) {
        Some(proc) => page_in(&proc.state, tx),
        None => PageFor::Nothing,
    }
}

fn page_in(state: &ProcState, tx: TxNo) -> PageFor
    ensures { result ≡ page_in tx state.now }
{
    match state {
        ProcState::PageWait { tx: known, page } => {
            if *known == tx {
                PageFor::Burst(*page)
            } else {
                PageFor::Nothing
            }
        }
        ProcState::ForkPages { tx: known, page } => {
            if *known == tx {
                PageFor::Fork(*page)
            } else {
                PageFor::Nothing
            }
        }
        ProcState::AnswerPages {
            tx: known,
            page,
            ..
        } => {
            if *known == tx {
                PageFor::Answer(*page)
            } else {
                PageFor::Nothing
            }
        }
        _ => PageFor::Nothing,
    }
}

// Puts the page that the answer brings into the process's image.
fn put_page(
    client: &mut ClientProcs,
    alloc: Global,
    pid: Pid,
    page: u8,
    body: &ReplyBody,
) -> Result<(), NoMemory>
    ensures { OnOk result (client.new ≡ has_page pid page body.now client.old) }
{
    match body {
        ReplyBody::Page { bytes } => put_bytes(client, pid, page, bytes.copy(alloc)?),
        _ => {}
    }
    Ok(())
}

fn put_bytes(client: &mut ClientProcs, pid: Pid, page: u8, bytes: Bytes)
    ensures { client.new ≡ has_bytes pid page bytes client.old }
{
    match client.procs.get_mut(&pid) {
        Some(proc) => put_in(proc, page, bytes),
        None => {}
    }
}

// Every page has 4,096 bytes, and an image its pages.
fn put_in(proc: &mut Proc, page: u8, bytes: Bytes)
    ensures { proc.new ≡ with_page_in page bytes proc.old }
{
    if bytes.len() == 4096 && page < proc.image.page_count() {
        proc.image.set_page(page, Some(bytes));
    }
}
