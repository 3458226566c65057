//! Small files and runs of steps, each judged by the definitions: that the file stays coherent, and that views which a wrong
//! server or client would lead to aren't.
#![tactic(auto)]

ghost use Rattle.std.specs.Prelude.{◌≡◌, true, false, codes, []};
ghost use Rattle.file_views.specs.Coherent.{coherent};
ghost use Rattle.file_views.specs.Plays.{are_possible, bytes_played, stays_coherent};
ghost use Rattle.file_views.specs.Examples.{tiny, small, truncated_run, uncompared_view, crossed_run, older_taken_view, overtaken_run, emptied_run, old_stored_view, called_run, granted_early_view, held_run, dropped_view, partial_run, uncut_view, sharing_run, unstopped_view, moved_run, carried_run, limit_run};

/// An open with truncation drops the blocks that were recalled; kept without comparing versions they would be out of date.
pub fn compares_versions()
    ensures possible_right { are_possible tiny (small (codes "x")) truncated_run ≡ true }
    ensures right { stays_coherent tiny (small (codes "x")) (codes "x") truncated_run ≡ true }
    ensures bytes { bytes_played tiny (small (codes "x")) (codes "x") truncated_run ≡ [] }
    ensures wrong { coherent tiny uncompared_view [] ≡ false }
{}

/// An older grant that comes after a newer one changes nothing; taken, it would bring back an old stamp.
pub fn takes_no_older_grant()
    ensures possible_right { are_possible tiny (small (codes "x")) crossed_run ≡ true }
    ensures right { stays_coherent tiny (small (codes "x")) (codes "x") crossed_run ≡ true }
    ensures wrong { coherent tiny older_taken_view (codes "x") ≡ false }
{}

/// A write-back whose stamp is old changes nothing; stored, it would bring back bytes that a truncation took away.
pub fn stores_no_old_write_back()
    ensures possible_right { are_possible tiny (small []) overtaken_run ≡ true }
    ensures right { stays_coherent tiny (small []) [] overtaken_run ≡ true }
    ensures possible_emptied { are_possible tiny (small []) emptied_run ≡ true }
    ensures emptied { stays_coherent tiny (small []) [] emptied_run ≡ true }
    ensures wrong { coherent tiny old_stored_view [] ≡ false }
{}

/// A second writer is granted only after the callbacks are answered.
pub fn grants_after_the_answers()
    ensures possible_right { are_possible tiny (small (codes "x")) called_run ≡ true }
    ensures right { stays_coherent tiny (small (codes "x")) (codes "x") called_run ≡ true }
    ensures wrong { coherent tiny granted_early_view (codes "x") ≡ false }
{}

/// The holder's further opens leave the version, so that its dirty blocks stay in whatever order their grants come.
pub fn keeps_dirty_blocks()
    ensures possible_right { are_possible tiny (small []) held_run ≡ true }
    ensures right { stays_coherent tiny (small []) [] held_run ≡ true }
    ensures bytes { bytes_played tiny (small []) [] held_run ≡ codes "ab" }
    ensures wrong { coherent tiny dropped_view (codes "ab") ≡ false }
{}

/// A partial last block is sent cut at the file's size.
pub fn sends_partial_blocks()
    ensures possible_right { are_possible tiny (small []) partial_run ≡ true }
    ensures right { stays_coherent tiny (small []) [] partial_run ≡ true }
    ensures wrong { coherent tiny uncut_view (codes "a") ≡ false }
{}

/// Two clients share a file for writing, and nobody caches it.
pub fn shares_for_writing()
    ensures possible_right { are_possible tiny (small (codes "a")) sharing_run ≡ true }
    ensures right { stays_coherent tiny (small (codes "a")) (codes "a") sharing_run ≡ true }
    ensures bytes { bytes_played tiny (small (codes "a")) (codes "a") sharing_run ≡ codes "abed" }
    ensures wrong { coherent tiny unstopped_view (codes "abed") ≡ false }
{}

/// A stream moves and leaves references behind; it moves with all of them while a write-back is on its way.
pub fn moves_streams()
    ensures possible_kept { are_possible tiny (small []) moved_run ≡ true }
    ensures kept { stays_coherent tiny (small []) [] moved_run ≡ true }
    ensures kept_bytes { bytes_played tiny (small []) [] moved_run ≡ codes "abc" }
    ensures possible_carried { are_possible tiny (small []) carried_run ≡ true }
    ensures carried { stays_coherent tiny (small []) [] carried_run ≡ true }
    ensures carried_bytes { bytes_played tiny (small []) [] carried_run ≡ codes "abc" }
{}

/// Appends go to the file's end in a cache and at the server, and are refused past the limit.
pub fn appends_up_to_the_limit()
    ensures possible_right { are_possible tiny (small []) limit_run ≡ true }
    ensures right { stays_coherent tiny (small []) [] limit_run ≡ true }
    ensures bytes { bytes_played tiny (small []) [] limit_run ≡ codes "abcdef" }
{}
