use crate::kept::Kept;
use file_views::View;
use sprite_ids::Items;

/// One file whose server may have stopped (this project).
#[derive(Debug, PartialEq, Eq, Drop)]
pub struct Restarted {
    /// What the server and the clients keep, where a client that hasn't told the server what it has is taken as one that knows
    /// nothing of the file.
    pub view: View,
    /// For each client what it keeps by itself until it tells the server; None for one that has told. The list may be empty
    /// where all have told.
    pub kept: Items<Option<Kept>>,
}
