ghost use Rattle.unix_laws.specs.Asks.{AsksComeInOrder, DevicesMove};
ghost use Rattle.unix_laws.specs.Clients.{ProcessesAreOfClients};
ghost use Rattle.unix_laws.specs.Ends.{DeathsTakeAway, EndsTakeAway, KilledMayDie};
ghost use Rattle.unix_laws.specs.Names.{ThingsHaveOneName};
ghost use Rattle.unix_laws.specs.Once.{AsksAreAnsweredOnce, TheDeadStayDead};
ghost use Rattle.unix_laws.specs.Operations.{OperationsEndFit};
ghost use Rattle.unix_laws.specs.Replies.{RepliesFit};
ghost use Rattle.unix_laws.specs.Streams.{StatesAreTied, StreamsStayHome};

/// A law: what is asked of a device is answered first in, first out: what stood in its line, and then what was asked, is what was
/// answered, in that order, and then what stands in the line now (this project).
pub fn asks_come_in_order()
    ensures { AsksComeInOrder }
{}

/// A law: an entry leaves a device as it was, or puts an ask behind the others, or its master takes the first, having none in hand, or
/// answers the one in hand, or a process fetches what was left for it (Welch and Ousterhout 1988).
pub fn devices_move()
    ensures { DevicesMove }
{}

/// A law: in each state of a history each process's home is a client (this project).
pub fn processes_are_of_clients()
    ensures { ProcessesAreOfClients }
{}

/// A law: a death is of a process that a kill is pending for, between two of its calls; beside what each end takes away it takes
/// nothing, and has no reply (this project).
pub fn deaths_take_away()
    ensures { DeathsTakeAway }
{}

/// A law: an exit, a bad step and a death take away their process's descriptors, and the life of each device that had no other master;
/// they leave each other process, all names, files, streams and counts of ticks, and what devices are asked (this project).
pub fn ends_take_away()
    ensures { EndsTakeAway }
{}

/// A law: a living process that a kill is pending for, and that is in no ask, may die, whatever its next call is (this project).
pub fn killed_may_die()
    ensures { KilledMayDie }
{}

/// A law: in each state of a history a file has one name at most, and so has a device (this project).
pub fn things_have_one_name()
    ensures { ThingsHaveOneName }
{}

/// A law: the reply of a whole call fits it: an error is one of its row, and a value has its row's form, with bytes within what was asked
/// for (this project).
pub fn replies_fit()
    ensures { RepliesFit }
{}

/// A law: in each state of a history each stream, device and descriptor leads to what is there; a device has the one master's stream
/// that was made with it, and is alive exactly where a living process has a descriptor of that (this project).
pub fn states_are_tied()
    ensures { StatesAreTied }
{}

/// A law: in each state of a history the processes that hold one stream are of one home, so a device's masters are (this project).
pub fn streams_stay_home()
    ensures { StreamsStayHome }
{}

/// A law: in each state of a history whoever is inside a living device's operation stands there once, in its line, in hand or with the
/// answer that was left, and nobody else does; so each ask is answered once (this project).
pub fn asks_are_answered_once()
    ensures { AsksAreAnsweredOnce }
{}

/// A law: a device that is dead stays dead (Welch and Ousterhout 1988).
pub fn the_dead_stay_dead()
    ensures { TheDeadStayDead }
{}

/// A law: the reply by which an operation on a device ends fits its call: a value has its row's form, with bytes within what was asked
/// for; an error is its master's, or NoServer (Welch and Ousterhout 1988).
pub fn operations_end_fit()
    ensures { OperationsEndFit }
{}
