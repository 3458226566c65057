ghost use Rattle.settling_laws.specs.Settling.{SettlingsEnd};

/// A law over one file whose server may stop: whatever is played on a new file, what is under way may come only so often, and after a
/// settling nothing can come any more: no request waits for its receiver, and no reply.
pub fn settlings_end()
    ensures { SettlingsEnd }
{}
