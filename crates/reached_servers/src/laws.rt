ghost use Rattle.reached_servers.specs.Servers.{FilesAreBusy, FilesAreThere};

use link_plan::Link;

/// A law: at each server of a reached cluster a file is busy exactly where an open or a move of it is kept, and exactly where a callback
/// of it is out; a callback is out to a kernel exactly where it is among those that have no answer; and requests wait for busy files
/// alone (Nelson, Welch and Ousterhout 1988).
pub fn files_are_busy<L: Link>()
    ensures { FilesAreBusy L.faults L.asked }
{}

/// A law: at each server of a reached cluster a file that has no name is there, and somebody has it open; one that has a name is there;
/// and none has two names (this project).
pub fn files_are_there<L: Link>()
    ensures { FilesAreThere L.faults L.asked }
{}
