ghost use Rattle.std.specs.Prelude.{◌≡◌, IfOk, OnOk};
ghost use Rattle.client_homes.specs.Pages.{fetches, fetches_for_fork, first_away, page_away, sooner};
ghost use Rattle.client_homes.specs.Says.{next_tx};

use crate::client::{ClientProcs, Unfinished};
use crate::process::ProcState;
use packet_bodies::Request;
use process_machine::Image;
use sprite_ids::{NoMemory, Pid, TxNo};
use std::alloc::Global;

impl ClientProcs {
    /// Fetches a page of a process that is here from the server that keeps pages (Nelson, Welch and Ousterhout 1988), and
    /// gives the number of the remote call. The one error is want of memory, which is also the answer where no number is left.
    ///
    /// Of places: the page stays at the server until it is asked for there; then it is in the answer.
    pub fn fetch_page(&mut self, alloc: Global, pid: Pid, page: u8) -> Result<TxNo, NoMemory>
        ensures number { IfOk result (λ tx. tx ≡ next_tx self.old) }
        ensures state { OnOk result (self.new ≡ fetches pid page self.old) }
    {
        let tx = self.send(
            alloc,
            self.swap_server,
            &None,
            Request::PageIn { pid, page },
        )?;
        self.keep_tx(tx, Unfinished::PageIn(pid))?;
        Ok(tx)
    }

    // The process's `fork` waits for that page.
    pub(crate) fn fetch_for_fork(
        &mut self,
        alloc: Global,
        pid: Pid,
        page: u8,
    ) -> Result<(), NoMemory>
        ensures { OnOk result (self.new ≡ fetches_for_fork pid page self.old) }
    {
        let tx = self.fetch_page(alloc, pid, page)?;
        self.set_state(pid, ProcState::ForkPages { tx, page });
        Ok(())
    }

    // The least of the process's pages that are away.
    pub(crate) fn page_away(&self, pid: Pid) -> Option<u8>
        ensures { result ≡ page_away pid self.now }
    {
        match self.procs.get(&pid) {
            Some(proc) => first_away(&proc.image),
            None => None,
        }
    }
}

// The least of the image's pages that are away.
fn first_away(image: &Image) -> Option<u8>
    ensures { result ≡ first_away image.now.pages }
{
    let mut least = None;
    for page in 0..image.page_count() {
        least = sooner(least, image, page);
    }
    least
}

// The page that was found, else the next one where it is away.
fn sooner(least: Option<u8>, image: &Image, page: u8) -> Option<u8>
    ensures { result ≡ sooner least image.now.pages page }
{
    match least {
        Some(found) => Some(found),
        None => {
            if image.page(page).is_none() {
                Some(page)
            } else {
                None
            }
        }
    }
}
