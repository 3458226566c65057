ghost use Rattle.cause_laws.specs.Losses.{UnreachableFollowsLosses};

/// Where a trace calls servers unreachable only for cause, at least eight packets between the entry's kernel and another were lost
/// before each such entry.
pub fn unreachable_follows_losses()
    ensures { UnreachableFollowsLosses }
{}
