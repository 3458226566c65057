/// What a figure is, which the picture's style sheet draws by its class (this project).
#[derive(Clone, Copy)]
pub enum Role {
    /// A kernel's lane.
    Lane,
    /// The line of the one kernel's history.
    Spine,
    /// A thin line below every tenth record.
    Rule,
    /// The ground behind the lanes' names, which stand again every forty records.
    Header,
    /// A file is cached.
    CachingOn,
    /// A file is used without a cache.
    CachingOff,
    /// A process on a kernel.
    Stay,
    /// A call that goes on.
    Call,
    /// A move of a process.
    Move,
    /// A packet.
    Arrow,
    /// A lost packet.
    Lost,
    /// The line from an entry of the history to its mark.
    Tie,
    /// A mark that is filled.
    Filled,
    /// A mark that is white.
    Hollow,
    /// A mark of what went wrong.
    Alarm,
    /// A record's number.
    Number,
    /// What a record says.
    Label,
    /// What a record says of the followed file.
    Followed,
    /// An entry of the history.
    Entry,
    /// A heading.
    Bold,
    /// Other text.
    Plain,
}

/// A mark that is drawn about a place, by its name (this project).
#[derive(Clone, Copy)]
pub enum Mark {
    Burst,
    Issue,
    Return,
    Pause,
    Entry,
    Cross,
    HeadRight,
    HeadLeft,
    Request,
    Reply,
    Repeat,
    Band,
    Dot,
    Stripe,
}

/// The outline of a figure; numbers are pixels, to the right and down (this project).
#[derive(Drop)]
pub enum Outline {
    Box {
        x: u64,
        y: u64,
        width: u64,
        height: u64,
    },
    Dot {
        x: u64,
        y: u64,
        radius: u64,
    },
    /// A line by its steps, as a path of SVG has them.
    Line {
        steps: Vec<u8>,
    },
    Mark {
        mark: Mark,
        x: u64,
        y: u64,
    },
    Text {
        x: u64,
        y: u64,
        words: Vec<u8>,
    },
}

/// What a figure is of.
#[derive(Clone, Copy)]
pub enum Subject {
    Nothing,
    /// The lane of the kernel of that number.
    Kernel(u64),
    /// What goes from a record to a record, by their numbers; `repeated` where it is late, or comes once more.
    Between {
        first: u64,
        last: u64,
        repeated: bool,
    },
}

/// A figure of a picture (this project).
#[derive(Drop)]
pub struct Figure {
    pub role: Role,
    /// The place of its process among the seven colours; 7 where it is for no process's sake.
    pub colour: u8,
    pub subject: Subject,
    pub outline: Outline,
    /// The text of its hint; empty where it has none.
    pub hint: Vec<u8>,
}

/// A record's figures (this project).
#[derive(Drop)]
pub struct Group {
    /// The record's number in its trace, counted from 1.
    pub number: u64,
    /// The text of its hint.
    pub hint: Vec<u8>,
    pub figures: Vec<Figure>,
}

/// A picture: the records in their order, and what stands around and behind them (this project).
#[derive(Drop)]
pub struct Drawing {
    /// How wide and how high it is, in pixels.
    pub width: u64,
    pub height: u64,
    /// The style sheet, by which classes are drawn.
    pub style: Vec<u8>,
    pub figures: Vec<Figure>,
    pub groups: Vec<Group>,
}
