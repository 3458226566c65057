ghost use Rattle.migrate_freeze.specs.Landing.{EachLands, MovesEnd};

/// A law: a process that was frozen lands as it was frozen once all its streams have moved, whatever these moves took: with the
/// places of offsets, the counts of grants and the grants that they took, and after an `rexec` with its program's fresh image.
pub fn each_lands()
    ensures { EachLands }
{}

/// A law: the moves of a frozen process end: after as many as it has descriptors all its streams have moved.
pub fn moves_end()
    ensures { MovesEnd }
{}
