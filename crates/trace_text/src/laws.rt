ghost use Rattle.trace_text.specs.Laws.{RecordIsOneLine, PrintedIsTrace, TextIsOneTrace, TraceHasNoBadLine, TextHasOneBadLine};

/// What is printed of a record that has a line is one line, with byte 10 at its end alone (this project).
pub fn record_is_one_line()
    ensures { RecordIsOneLine }
{}

/// What is printed of records that have lines is a trace of these (this project).
pub fn printed_is_trace()
    ensures { PrintedIsTrace }
{}

/// A text is the trace of one list of records at most, so that a printed list is read as itself and as no other (this
/// project).
pub fn text_is_one_trace()
    ensures { TextIsOneTrace }
{}

/// A trace has no first bad line, so that each is read where memory suffices (this project).
pub fn trace_has_no_bad_line()
    ensures { TraceHasNoBadLine }
{}

/// A text has one first bad line at most (this project).
pub fn text_has_one_bad_line()
    ensures { TextHasOneBadLine }
{}
