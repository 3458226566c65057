ghost use Rattle.trace_laws.specs.Faults.{FaultsCanBeLeftOut, FaultsCanBeLeftOutBehind, FormedWithoutFaults, FaultsStandApartOn, StepsStandApart};

/// A law: where no record of a fault stands between an Opened and its entry, a trace without its faults leads to what the trace leads
/// to, but for the records themselves (this project).
pub fn faults_can_be_left_out()
    ensures { FaultsCanBeLeftOut }
{}

/// A law: so do some records more, behind what stands behind a place without its faults (this project).
pub fn faults_can_be_left_out_behind()
    ensures { FaultsCanBeLeftOutBehind }
{}

/// A law: of a trace that is formed well the faults can be left out so, wherever they stand (this project).
pub fn formed_without_faults()
    ensures { FormedWithoutFaults }
{}

/// A law: whether a fault stands between an Opened and its entry in a trace with more records at its end is told by its two parts
/// (this project).
pub fn faults_stand_apart_on()
    ensures { FaultsStandApartOn }
{}

/// A law: what stands before some records, the first of which is neither a fault nor an entry, has no say in whether a fault stands
/// between an Opened and its entry among them (this project).
pub fn steps_stand_apart()
    ensures { StepsStandApart }
{}
