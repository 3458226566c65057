ghost use Rattle.history_text.specs.Laws.{EntryIsOneLine, LegalIsTogether, PrintedIsHistory, TextIsOneHistory, HistoryHasNoBadLine, TextHasOneBadLine};

/// What is printed of an entry is one line, with byte 10 at its end alone (this project).
pub fn entry_is_one_line()
    ensures { EntryIsOneLine }
{}

/// The parts of each entry belong together in a history that one Unix kernel gives, so that it is printed where memory suffices (this
/// project).
pub fn legal_is_together()
    ensures { LegalIsTogether }
{}

/// What is printed of entries is a history of these (this project).
pub fn printed_is_history()
    ensures { PrintedIsHistory }
{}

/// A text is the history of one list of entries at most, so that a printed list is read as itself and as no other (this
/// project).
pub fn text_is_one_history()
    ensures { TextIsOneHistory }
{}

/// A history has no first bad line, so that each is read where memory suffices (this project).
pub fn history_has_no_bad_line()
    ensures { HistoryHasNoBadLine }
{}

/// A text has one first bad line at most (this project).
pub fn text_has_one_bad_line()
    ensures { TextHasOneBadLine }
{}
