ghost use Rattle.tree_laws.specs.GoOn.{NamesGoOn};
ghost use Rattle.tree_laws.specs.Laws.{CountsAsOne, FindsAsOne, MadeIsSame, MakesAsOne, RemovedIsSame, RemovesAsOne};
ghost use Rattle.tree_laws.specs.Renames.{RenamedIsSame, RenamesAsOne};
ghost use Rattle.tree_laws.specs.Wellnamed.{EntriesNameWell};

/// A law: what a path below a domain's root names at its server is what the one-kernel Unix has there, with the same refusals (this
/// project).
pub fn finds_as_one()
    ensures { FindsAsOne }
{}

/// A law: a directory below a domain's root has as many names at its server as in the one-kernel Unix (this project).
pub fn counts_as_one()
    ensures { CountsAsOne }
{}

/// A law: making a name at its domain's server answers as the one-kernel Unix does (this project).
pub fn makes_as_one()
    ensures { MakesAsOne }
{}

/// A law: and leads to the same names (this project).
pub fn made_is_same()
    ensures { MadeIsSame }
{}

/// A law: taking a name away at its domain's server answers as the one-kernel Unix does (this project).
pub fn removes_as_one()
    ensures { RemovesAsOne }
{}

/// A law: and leads to the same names (this project).
pub fn removed_is_same()
    ensures { RemovedIsSame }
{}

/// A law: renaming within a domain at its server answers as the one-kernel Unix does (this project).
pub fn renames_as_one()
    ensures { RenamesAsOne }
{}

/// A law: and leads to the same names (this project).
pub fn renamed_is_same()
    ensures { RenamedIsSame }
{}

/// A law: behind an entry whose call changes no names, a server's names are still those of the one-kernel Unix (this project).
pub fn names_go_on()
    ensures { NamesGoOn }
{}

/// A law: each entry keeps that each path stands once among the names of the one-kernel Unix, and that above each name is a
/// directory (this project).
pub fn entries_name_well()
    ensures { EntriesNameWell }
{}
