ghost use Rattle.version_table.specs.Laws.{CallbacksGoOnce, GrantsComeAlone, GrantsSay, StampsRise};

/// A law: a decision that must call kernels first sends exactly one callback to each kernel that it names, and none to
/// another.
pub fn callbacks_go_once()
    ensures { CallbacksGoOnce }
{}

/// A law: until a file is forgotten, the stamp of each grant and of each callback of it is greater than all its stamps
/// before.
pub fn stamps_rise()
    ensures { StampsRise }
{}

/// A law: a grant has mode On exactly where the file isn't uncached after it.
pub fn grants_say_whether_cached()
    ensures { GrantsSay }
{}

/// A law: whatever calls come on a new table, as far as they may be made, a decision or `settle` gives a grant of a file only
/// with no callback of that file out.
pub fn grants_come_alone()
    ensures { GrantsComeAlone }
{}
