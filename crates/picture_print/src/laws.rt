ghost use Rattle.picture_print.specs.Laws.{EscapedIsText};

/// Bytes of any kind, escaped, have no sign of the language bare among them.
pub fn escaped_is_text()
    ensures { EscapedIsText }
{}
