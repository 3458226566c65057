ghost use Rattle.std.specs.Prelude.{◌≡◌, ◌<◌, ◌+◌, IfSome};

/// The records that a picture shows: those from a place on, so many; places count from 0 (this project).
#[derive(Clone, Copy)]
pub struct Span {
    pub first: usize,
    pub count: u16,
}

impl Span {
    /// The row of the record of that place, counted from 0; None where it isn't shown.
    pub fn row(&self, place: usize) -> Option<u16>
        ensures { IfSome result (λ row. (row < self.now.count) × (place ≡ self.now.first + row)) }
    {
        let row = place.checked_sub(self.first)?;
        if row < usize::from(self.count) {
            Some(row as u16)
        } else {
            None
        }
    }

    /// Whether a record from one place to another is shown.
    pub fn touches(&self, first: usize, last: usize) -> bool {
        let end = self.first.saturating_add(usize::from(self.count));
        first < end && self.first <= last
    }

    /// The row of the first record from that place on that is shown; the last row where that is behind all.
    pub fn row_from(&self, place: usize) -> u16 {
        let row = place.saturating_sub(self.first);
        row.min(usize::from(self.count.saturating_sub(1))) as u16
    }
}
