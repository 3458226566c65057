ghost use Rattle.std.specs.Prelude.{◌≡◌, ◌+◌, ◌*◌, ◌-◌, ◌/◌, ◌%◌, ◌<◌, ◌≤◌};
ghost use Rattle.picture_drawing.specs.Places.{column_count, lane_left, row_top};

use sprite_ids::Kernel;

/// How high a record's row is.
const ROW: u64 = 14;
/// How high the lanes' names are, which stand again every `EVERY` records.
const HEAD: u64 = 20;

const EVERY: u64 = 40;
/// Where the line of the one kernel's history is.
pub(crate) const SPINE: u64 = 54;
/// Where the first lane begins, how wide a lane is, and how far it is from one to the next.
const LEFT: u64 = 342;

const LANE: u64 = 274;

const STEP: u64 = 310;
/// How wide an item of the legend is, and how high a row of them.
const ITEM: u64 = 230;

const LINE: u64 = 18;

/// Where things stand in a picture, in pixels to the right and down (this project).
///
/// Time goes down: each record has a row of its own, 14 high, and above every fortieth the lanes' names stand, 20 high. Lanes are 274
/// wide with 36 between two of them, and a kernel's is always at the same place; in a lane there is from its left the edge, where the
/// followed file's caching is shown, the processes from 10 to 70, marks from 70 to 86, and what the record says from 86 on.
#[derive(Clone, Copy)]
pub(crate) struct Layout {
    /// How many rows the legend has.
    pub(crate) legend: u16,
    /// For how many lanes there is room: the highest number of a kernel that appears.
    pub(crate) count: u8,
}

impl Layout {
    /// Room for the lanes of the kernels that appear, whose numbers ascend, and for a legend of so many items.
    pub(crate) fn new(kernels: &[Kernel], items: u16) -> Layout {
        let count = match kernels {
            [.., last] => last.number(),
            [] => 0,
        };
        let layout = Layout { legend: 0, count };
        let legend = (items / layout.columns()).saturating_add(1);
        Layout { legend, count }
    }

    /// How wide the picture is.
    pub(crate) fn width(&self) -> u64
        ensures value { result ≡ lane_left self.now.count }
        ensures within { (342 ≤ result) × (result < 131072) }
    {
        let layout = *self;
        LEFT + STEP * u64::from(layout.count)
    }

    /// How many items of the legend stand beside each other.
    pub(crate) fn columns(&self) -> u16
        ensures value { result ≡ column_count self.now.count }
        ensures some { 0 < result }
    {
        ((self.width() - 46) / ITEM) as u16
    }

    /// Where the legend's item of that place stands.
    pub(crate) fn item(&self, place: u16) -> (u64, u64)
        ensures x { result.0 ≡ 46 + 230 * (place % column_count self.now.count) }
        ensures y { result.1 ≡ 42 + 18 * (place / column_count self.now.count) }
        ensures within { (42 ≤ result.1) × (result.1 < 1179700) }
        ensures within_x { result.0 < 15073200 }
    {
        let columns = self.columns();
        let across = u64::from(place % columns);
        let down = u64::from(place / columns);
        (46 + ITEM * across, 42 + LINE * down)
    }

    /// The upper edge of a record's row.
    pub(crate) fn row_top(&self, row: u16) -> u64
        ensures value { result ≡ row_top self.now.legend row }
        ensures within { (60 ≤ result) × (result < 16777216) }
    {
        let layout = *self;
        let row = u64::from(row);
        40 + HEAD + LINE * u64::from(layout.legend) + ROW * row + HEAD * (row / EVERY)
    }

    /// The middle of a record's row.
    pub(crate) fn middle(&self, row: u16) -> u64
        ensures value { result ≡ row_top self.now.legend row + 7 }
        ensures within { (67 ≤ result) × (result < 16777224) }
    {
        self.row_top(row) + ROW / 2
    }

    /// The base line of a record's texts.
    pub(crate) fn base(&self, row: u16) -> u64
        ensures value { result ≡ row_top self.now.legend row + 11 }
    {
        self.row_top(row) + 11
    }

    /// The lower edge of the last of so many rows.
    pub(crate) fn bottom(&self, rows: u16) -> u64
        ensures within { (74 ≤ result) × (result < 16777230) }
    {
        self.row_top(rows.saturating_sub(1)) + ROW
    }

    /// The left edge of a kernel's lane.
    pub(crate) fn left(&self, kernel: Kernel) -> u64
        ensures value { result ≡ lane_left (kernel - 1) }
        ensures within { (342 ≤ result) × (result < 131072) }
    {
        LEFT + STEP * (u64::from(kernel.number()) - 1)
    }

    /// Where what a record says begins, in its kernel's lane.
    pub(crate) fn words(&self, kernel: Kernel) -> u64
        ensures value { result ≡ lane_left (kernel - 1) + 86 }
    {
        self.left(kernel) + 86
    }

    /// What is that far outside the edge of a kernel's lane which faces another kernel.
    pub(crate) fn port(&self, kernel: Kernel, other: Kernel, by: u8) -> u64
        ensures within { result < 131602 }
    {
        if kernel.number() < other.number() {
            self.left(kernel) + LANE + u64::from(by)
        } else {
            self.left(kernel) - u64::from(by)
        }
    }
}
