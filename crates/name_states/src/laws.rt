ghost use Rattle.name_states.specs.States.{StatesNameWell};

/// A law: in each state of a history each path stands once among the names of the one-kernel Unix, and above each name is a directory
/// (this project).
pub fn states_name_well()
    ensures { StatesNameWell }
{}
