ghost use Rattle.std.specs.Prelude.{◌≡◌, option_map};
ghost use Rattle.client_moves.specs.Evicting.{is_ready};
ghost use Rattle.client_moves.specs.Returning.{number_at};
ghost use Rattle.client_procs.specs.Readers.{all_ended, image_in, number_in, with_image};
ghost use Rattle.write_delay.specs.Delays.{due};

use client_homes::{ClientProcs, Proc};
use client_moves::{is_ready, runs_here};
use process_machine::Image;
use sprite_ids::{BlockNo, FileId, Pid};

/// The image of the process; None exactly where it isn't kept here.
pub fn image(client: &ClientProcs, pid: Pid) -> Option<&Image>
    ensures { option_map (λ image. image.now) result ≡ image_in pid client.now }
{
    if !runs_here(client, pid) {
        return None;
    }
    match client.procs.get(&pid) {
        Some(proc) => Some(&proc.image),
        None => None,
    }
}

/// Whether the process is kept here, has no unreturned call and waits for no page: so it can run.
pub fn ready(client: &ClientProcs, pid: Pid) -> bool
    ensures { result ≡ is_ready pid client.now }
{
    is_ready(client, pid)
}

/// The process has run: it has that image. Of a process that isn't here it does nothing. Of places: the process's image.
pub fn set_image(client: &mut ClientProcs, pid: Pid, image: Image)
    ensures { client.new ≡ with_image pid image client.old }
{
    match client.procs.get_mut(&pid) {
        Some(proc) => put_image(proc, image),
        None => {}
    }
}

fn put_image(proc: &mut Proc, image: Image)
    ensures { proc.new ≡ record proc.old { image = image } }
{
    proc.image = image;
}

/// The number of the call that the process came to last, from 1, or 0 where it came to none; None exactly where the process isn't
/// kept here.
pub fn number(client: &ClientProcs, pid: Pid) -> Option<u32>
    ensures { result ≡ number_in pid client.now }
{
    if !runs_here(client, pid) {
        return None;
    }
    number_of(client, pid)
}

// The number of the call that the process came to last.
pub(crate) fn number_of(client: &ClientProcs, pid: Pid) -> Option<u32>
    ensures { result ≡ number_at pid client.now }
{
    match client.procs.get(&pid) {
        Some(proc) => Some(proc.number),
        None => None,
    }
}

/// Whether every process whose home is this kernel has ended, wherever it was (this project); so it is where none was ever born
/// here.
pub fn all_ended(client: &ClientProcs) -> bool
    ensures { result ≡ all_ended client.now }
{
    !client.home.lives()
}

/// The block of which a write-back is due in that step; None exactly where there is none (Nelson, Welch and Ousterhout 1988).
pub fn due(client: &ClientProcs, step: u64) -> Option<(FileId, BlockNo)>
    ensures { result ≡ due client.now.files.delay step }
{
    client_files::due(&client.files, step)
}
