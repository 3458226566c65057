ghost use Rattle.pending_laws.specs.Waits.{NothingIsPending};

/// A law: where no operation of a client's files' side waits for a remote call, none is pending, by facts that its steps keep: who waits for
/// a lock or for a turn waits for an operation that waits for a remote call (this project).
pub fn nothing_is_pending()
    ensures { NothingIsPending }
{}
