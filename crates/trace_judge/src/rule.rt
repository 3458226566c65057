ghost use Rattle.std.specs.Prelude.{◌≡◌};
ghost use Rattle.trace_judge.specs.Rules.{name_of};

/// A rule of a trace (this project).
#[derive(Clone, Copy, Debug, PartialEq, Eq)]
pub enum Rule {
    /// Records are written as they should be: each packet's record follows from those before it, and what a server says of an open, of
    /// a callback and of an operation stands together (this project).
    Formed,
    /// Entries stand at the kernels that do their calls (Welch and Ousterhout 1986; Welch 1986; Douglis and Ousterhout 1991).
    Entries,
    /// What is called in a cache uses blocks that are held there (Nelson, Welch and Ousterhout 1988).
    CachedCalls,
    /// Operations on a file go out to its server only uncached (Nelson, Welch and Ousterhout 1988).
    Operations,
    /// Fetches are of blocks that the kernel doesn't hold (Nelson, Welch and Ousterhout 1988).
    Fetches,
    /// Blocks are dropped for a cause (Nelson, Welch and Ousterhout 1988).
    Drops,
    /// A kernel stops caching a file only where it is shared for writing, or truncated while it is open (Nelson, Welch and Ousterhout 1988).
    Sharing,
    /// Prefixes are broadcast until they are learned (Welch and Ousterhout 1986).
    Broadcasts,
    /// Processes run where they are, and move for a cause (Douglis and Ousterhout 1991).
    Moves,
    /// Blocks are written back for a cause (Nelson, Welch and Ousterhout 1988).
    WriteBacks,
    /// No record stands for nothing: each is worth the units that it costs (this project).
    Worth,
}

impl Rule {
    /// The name by which the rule is printed.
    pub fn name(self) -> &'static str
        ensures { result.now ≡ name_of self }
    {
        match self {
            Rule::Formed => "formed",
            Rule::Entries => "P1",
            Rule::CachedCalls => "P2",
            Rule::Operations => "P3",
            Rule::Fetches => "P4",
            Rule::Drops => "P5",
            Rule::Sharing => "P6",
            Rule::Broadcasts => "P7",
            Rule::Moves => "P8",
            Rule::WriteBacks => "P9",
            Rule::Worth => "worth",
        }
    }
}
