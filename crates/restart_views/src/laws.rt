ghost use Rattle.restart_views.specs.Answered.{AnsweredStay};
ghost use Rattle.restart_views.specs.ColdSteps.{ColdStepsStay};
ghost use Rattle.restart_views.specs.RestartLaw.{RestartsStay};
ghost use Rattle.restart_views.specs.RunLaw.{RunsStay};
ghost use Rattle.restart_views.specs.RunBytes.{DueStays};
ghost use Rattle.restart_views.specs.ServerMoves.{ServerMovesStay};

/// A law: what a stop of the file's server leaves is sound: a file that nobody has opened or knows, uncached, at any version. While nobody
/// uses a cache of the file or is about to, its version may rise and its bytes may be replaced, which are then the bytes that the view
/// stands for; a kernel that no unfinished call is of, to or a move to may be granted the file without its cache, and a stream that nothing
/// names may be open at a kernel again; and where nobody has it open and no callback is out, it may be cached again. These change no byte.
pub fn server_moves_stay()
    ensures { ServerMovesStay }
{}

/// A law over steps while no client may cache the file, from any sound view in which it is uncached and nobody uses its cache or is
/// about to: the view after a step is such a one, its server's bytes are the old ones as what took effect changed them, in order, and
/// each reading had the bytes of its moment. What a stop leaves is such a view.
pub fn cold_steps_stay()
    ensures { ColdStepsStay }
{}

/// A law: in a new file, and after each step from a sound view of which it is so, a client that has answered a callback with blocks knows
/// the file at the server's version, until the answer comes. So a stop of the server in between doesn't take those blocks for old ones.
pub fn answers_are_current()
    ensures { AnsweredStay }
{}

/// A law over one file whose server may stop: its view is sound, and so coherent with the bytes that it stands for; while some client
/// keeps something by itself the file is uncached, nobody uses its cache of it or is about to, and those are the server's bytes. Each
/// step of the file, stop, claim and settling keeps that; a step of the file changes those bytes by exactly what takes effect, each
/// reading has the bytes of its moment, and an append is refused exactly where it would pass the most that a file may have.
pub fn restarts_stay()
    ensures { RestartsStay }
{}

/// A law: a stop leaves the bytes that the file stands for: those that a client keeps dirty, or had in an answer to a callback that
/// hadn't come, are the file's until it tells the server; at most one client keeps such blocks. A claim leaves them too, granted or
/// refused.
pub fn due_stays()
    ensures { DueStays }
{}

/// A law, the theorem on a file's server that stops and comes back: after any list of file steps, stops, claims and settlings, from a
/// new file with one to fifteen clients on, the bytes are the first ones as all that took effect changed them, in order; a stop and a
/// claim leave them, and where an open is granted while a client keeps dirty blocks by itself, they become the server's first. Before and
/// after each step, and between the deliveries of a settling, the view is coherent with them, or, while a client keeps dirty blocks by
/// itself, with the server's bytes. Each reading has them as of its moment, and an append is refused exactly where it would pass the most
/// that a file may have.
pub fn runs_stay()
    ensures { RunsStay }
{}
