ghost use Rattle.std.specs.Prelude.{◌≡◌, IfOk, OnOk};
ghost use Rattle.client_homes.specs.Births.{child_image, child_of, copies_cwd, forgets_early, forks_streams, image_of_child, makes_child, meets_early, places_child};

use crate::client::ClientProcs;
use crate::cluster::give_in;
use crate::process::{Proc, ProcState};
use crate::saying::value;
use process_machine::Image;
use sprite_ids::{Copying, NoMemory, Pid, TxNo};
use std::alloc::Global;
use unix_calls::ProgramLine;

impl ClientProcs {
    // The child of a process that is here begins beside it: with its parent's image, in which `fork` replies 0, its streams and
    // its working directory. Of places: the child is here from now on, with the pages that its parent has.
    pub(crate) fn make_child(
        &mut self,
        alloc: Global,
        parent: Pid,
        child: Pid,
    ) -> Result<(), NoMemory>
        ensures { OnOk result (self.new ≡ makes_child parent child self.old) }
    {
        match self.child_image(alloc, parent)? {
            Some(image) => self.place_child(alloc, parent, child, image),
            None => Ok(()),
        }
    }

    // The image of a child of the process.
    fn child_image(&self, alloc: Global, parent: Pid) -> Result<Option<Image>, NoMemory>
        ensures { IfOk result (λ image. image ≡ child_image parent self.now) }
    {
        match self.procs.get(&parent) {
            Some(proc) => {
                let image = image_of_child(alloc, self.programs.as_slice(), &proc.image)?;
                Ok(Some(image))
            }
            None => Ok(None),
        }
    }

    fn place_child(
        &mut self,
        alloc: Global,
        parent: Pid,
        child: Pid,
        image: Image,
    ) -> Result<(), NoMemory>
        ensures { OnOk result (self.new ≡ places_child parent child image self.old) }
    {
        self.fork_streams(parent, child)?;
        self.copy_cwd(alloc, parent, child)?;
        self.procs.put(child, child_of(image))?;
        self.meet_early(alloc, child)
    }

    // The child has its parent's descriptors.
    fn fork_streams(&mut self, parent: Pid, child: Pid) -> Result<(), NoMemory>
        ensures { OnOk result (self.new ≡ forks_streams parent child self.old) }
    {
        self.files.streams.fork(parent, child)
    }

    // The child has its parent's working directory.
    fn copy_cwd(&mut self, alloc: Global, parent: Pid, child: Pid) -> Result<(), NoMemory>
        ensures { OnOk result (self.new ≡ copies_cwd parent child self.old) }
    {
        let cwd = match self.files.cwd(parent) {
            Some(cwd) => Some(cwd.copy(alloc)?),
            None => None,
        };
        match cwd {
            Some(cwd) => self.files.set_cwd(child, cwd),
            None => Ok(()),
        }
    }

    // A child whose kill came before it begins with it, and dies at once.
    fn meet_early(&mut self, alloc: Global, child: Pid) -> Result<(), NoMemory>
        ensures { OnOk result (self.new ≡ meets_early child self.old) }
    {
        if !self.early.has(&child) {
            return Ok(());
        }
        self.early.remove_all(&child);
        self.set_killed(child);
        self.die(alloc, child)
    }

    // That `fork` is answered: no process that was killed early comes by it any more.
    pub(crate) fn forget_early(&mut self, tx: TxNo)
        ensures { self.new ≡ forgets_early tx self.old }
    {
        self.early.remove_value(&tx);
    }
}

// The parent's image, in which `fork` replies 0.
fn image_of_child(alloc: Global, programs: &[ProgramLine], image: &Image) -> Result<Image, NoMemory>
    ensures { IfOk result (λ child. child ≡ image_of_child programs.now image.now) }
{
    let mut child = image.copy(alloc)?;
    give_in(programs, &mut child, &value(alloc, 0, 0));
    Ok(child)
}

// A process that begins with that image.
fn child_of(image: Image) -> Proc
    ensures { result ≡ child_of image }
{
    Proc {
        number: 0,
        image,
        fresh: false,
        killed: false,
        evict: false,
        call: None,
        state: ProcState::Ready,
    }
}
