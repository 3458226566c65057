ghost use Rattle.unix_frames.specs.Frames.{EntriesLeave};
ghost use Rattle.unix_frames.specs.Order.{StatesAreInOrder};

/// A law: an entry of a history leaves all names, files, streams, devices and counts of ticks as they were but those that its call
/// changes, and every other process but that a kill of it is pending or that it was waited for (this project).
pub fn entries_leave()
    ensures { EntriesLeave }
{}

/// A law: in each state of a history the processes stand by ascending number, and each has the home of its parent (this project).
pub fn states_are_in_order()
    ensures { StatesAreInOrder }
{}
