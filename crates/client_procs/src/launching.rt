ghost use Rattle.std.specs.Prelude.{◌≡◌, IfOk, OnOk};
ghost use Rattle.client_procs.specs.Launching.{begins_program, fresh_image, freshened, has_fresh, is_program, numbered, program_named};
ghost use Rattle.std.specs.List.{position};

use client_homes::{ClientProcs, Proc};
use process_machine::Image;
use sprite_ids::{Bytes, NoMemory, Pid};
use std::alloc::Global;
use unix_calls::ProgramLine;

// The number of the program of that name.
pub(crate) fn program_named(programs: &[ProgramLine], name: &Bytes) -> Option<u8>
    ensures { result ≡ program_named programs.now name.now }
{
    match place_of(programs, name) {
        Some(place) => numbered(place),
        None => None,
    }
}

fn place_of(programs: &[ProgramLine], name: &Bytes) -> Option<usize>
    ensures { result ≡ position (is_program name.now) programs.now }
{
    programs.iter().position(|line| line.name == *name)
}

// The number of what stands at that place, from 1.
fn numbered(place: usize) -> Option<u8>
    ensures { result ≡ numbered place }
{
    if place >= 255 {
        return None;
    }
    Some(place as u8 + 1)
}

// The image with which a process begins the program of that number.
pub(crate) fn fresh_image(
    alloc: Global,
    programs: &[ProgramLine],
    number: u8,
    arg: u64,
) -> Result<Option<Image>, NoMemory>
    ensures { IfOk result (λ image. image ≡ fresh_image programs.now number arg) }
{
    if number == 0 {
        return Ok(None);
    }
    match programs.get(usize::from(number - 1)) {
        Some(line) => Ok(Some(Image::fresh(alloc, &line.program, arg)?)),
        None => Ok(None),
    }
}

// The process begins the program of that number. Of places: its old image and its pages are nowhere from now on.
pub(crate) fn begin_program(
    client: &mut ClientProcs,
    alloc: Global,
    pid: Pid,
    number: u8,
    arg: u64,
) -> Result<(), NoMemory>
    ensures { OnOk result (client.new ≡ begins_program pid number arg client.old) }
{
    match fresh_image(alloc, client.programs.as_slice(), number, arg)? {
        Some(image) => {
            set_fresh(client, pid, image);
            Ok(())
        }
        None => Ok(()),
    }
}

fn set_fresh(client: &mut ClientProcs, pid: Pid, image: Image)
    ensures { client.new ≡ has_fresh pid image client.old }
{
    match client.procs.get_mut(&pid) {
        Some(proc) => freshen(proc, image),
        None => {}
    }
}

fn freshen(proc: &mut Proc, image: Image)
    ensures { proc.new ≡ freshened image proc.old }
{
    proc.image = image;
    proc.fresh = true;
}
