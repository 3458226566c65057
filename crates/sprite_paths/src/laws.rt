ghost use Rattle.sprite_paths.specs.Laws.{CleanedIsPath, TextCleansBack, TextTellsPath, PrefixIsByParts, BehindUndoesJoin, JoinUndoesBehind};

/// A law: what a text is cleaned into keeps all that a path keeps.
pub fn cleaned_is_path()
    ensures { CleanedIsPath }
{}

/// A law: the text of a path is cleaned into that path again, whatever the cwd.
pub fn text_cleans_back()
    ensures { TextCleansBack }
{}

/// A law: two paths with one text are one path.
pub fn text_tells_path()
    ensures { TextTellsPath }
{}

/// A law: a prefix is one by parts and not by bytes. `/a` is no prefix of `/ab`, and it is one of `/a` and `/a/b`.
pub fn prefix_is_by_parts()
    ensures { PrefixIsByParts }
{}

/// A law: a path that a prefix and a rest were joined into has that rest behind the prefix.
pub fn behind_undoes_join()
    ensures { BehindUndoesJoin }
{}

/// A law: a prefix joined with what a path has behind it is that path, and so never past the limits.
pub fn join_undoes_behind()
    ensures { JoinUndoesBehind }
{}
