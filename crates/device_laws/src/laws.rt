ghost use Rattle.device_laws.specs.Gone.{DevicesGoOn, LastMasterAsOne, LastMasterGoes, MastersLeaveAsks};
ghost use Rattle.device_laws.specs.Laws.{AsksAsOne, EndsAsOne, GetsAsOne, PutsAsOne};
ghost use Rattle.device_laws.specs.Runs.{DevicesRunAsOne, NewDevicesAreTold};

/// A law: an ask that stands behind the others in a device's table does so in the one-kernel Unix (this project).
pub fn asks_as_one()
    ensures { AsksAsOne }
{}

/// A law: a master takes the first ask, is refused, or waits, as in the one-kernel Unix (this project).
pub fn gets_as_one()
    ensures { GetsAsOne }
{}

/// A law: a master's answer is left for the ask in hand, or refused, as in the one-kernel Unix (this project).
pub fn puts_as_one()
    ensures { PutsAsOne }
{}

/// A law: an operation ends with the answer that was left for it, or with NoServer where the device is dead, as in the one-kernel
/// Unix (this project).
pub fn ends_as_one()
    ensures { EndsAsOne }
{}

/// A law: where the last master of a device is gone, the one-kernel Unix ends each ask that the table gives back with NoServer, in the
/// same order; the table is empty, and the device stays dead (Welch and Ousterhout 1988).
pub fn last_master_as_one()
    ensures { LastMasterAsOne }
{}

/// A law: where another master is left, a master's close gives no ask back, and the table still tells the same as the one-kernel Unix
/// (this project).
pub fn masters_leave_asks()
    ensures { MastersLeaveAsks }
{}

/// A law: an entry of a history that is no device's leaves all devices as they were, so that each table tells the same (this project).
pub fn devices_go_on()
    ensures { DevicesGoOn }
{}

/// A law: whatever is done with a device whose table tells the same as the one-kernel Unix, in whatever order, and whatever else enters,
/// the one-kernel Unix makes all of it, and the table still tells the same (this project).
pub fn devices_run_as_one()
    ensures { DevicesRunAsOne }
{}

/// A law: the table of a new device tells the same: nothing is asked of it so far (this project).
pub fn new_devices_are_told()
    ensures { NewDevicesAreTold }
{}

/// A law: and all of that is so behind the entry of a history by which a device dies: its line is one of different processes, which are
/// all inside, and no answer is left for them (this project).
pub fn last_master_goes()
    ensures { LastMasterGoes }
{}
