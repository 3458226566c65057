ghost use Rattle.std.specs.Prelude.{◌≡◌};
ghost use Rattle.cluster_file.specs.Keys.{spelled, section_key, top_keys, keys_of};

/// The name of a key of a cluster file.
#[derive(Clone, Copy, Debug, PartialEq, Eq)]
pub enum KeyName {
    Version,
    Budget,
    Cache,
    Kernel,
    Program,
    Start,
    Link,
    File,
    Evict,
    Name,
    Serves,
    Text,
    Host,
    Arg,
    Path,
    Repeat,
    Append,
    From,
    To,
    First,
    Every,
    Count,
    Fate,
    After,
}

impl KeyName {
    /// The key as it is spelled.
    pub fn text(self) -> &'static str
        ensures { result.now ≡ spelled self }
    {
        match self {
            KeyName::Version => "version",
            KeyName::Budget => "budget",
            KeyName::Cache => "cache",
            KeyName::Kernel => "kernel",
            KeyName::Program => "program",
            KeyName::Start => "start",
            KeyName::Link => "link",
            KeyName::File => "file",
            KeyName::Evict => "evict",
            KeyName::Name => "name",
            KeyName::Serves => "serves",
            KeyName::Text => "text",
            KeyName::Host => "host",
            KeyName::Arg => "arg",
            KeyName::Path => "path",
            KeyName::Repeat => "repeat",
            KeyName::Append => "append",
            KeyName::From => "from",
            KeyName::To => "to",
            KeyName::First => "first",
            KeyName::Every => "every",
            KeyName::Count => "count",
            KeyName::Fate => "fate",
            KeyName::After => "after",
        }
    }
}

/// What type the value at a key has.
#[derive(Clone, Copy, Debug, PartialEq, Eq)]
pub enum Kind {
    /// A whole number.
    Whole,
    /// A string.
    Text,
    /// A truth value.
    Truth,
    /// An array of tables.
    Tables,
    /// An array of strings.
    Texts,
}

/// A key that a table of a cluster file may have.
#[derive(Clone, Copy, Debug, PartialEq, Eq)]
pub struct Key {
    pub name: KeyName,
    pub kind: Kind,
    /// Whether the table must have it.
    pub required: bool,
}

/// An array of tables at the top of a cluster file.
#[derive(Clone, Copy, Debug, PartialEq, Eq)]
pub enum Section {
    Kernel,
    Program,
    Start,
    File,
    Link,
    Evict,
}

/// The sections, in the order in which their tables are gone through.
pub const SECTIONS: [Section; 6] = [
    Section::Kernel,
    Section::Program,
    Section::Start,
    Section::File,
    Section::Link,
    Section::Evict,
];

impl Section {
    /// The key at which the section stands.
    pub fn key(self) -> KeyName
        ensures { result ≡ section_key self }
    {
        match self {
            Section::Kernel => KeyName::Kernel,
            Section::Program => KeyName::Program,
            Section::Start => KeyName::Start,
            Section::File => KeyName::File,
            Section::Link => KeyName::Link,
            Section::Evict => KeyName::Evict,
        }
    }
}

/// The keys at the top.
const TOP: [Key; 9] = [
    Key {
        name: KeyName::Version,
        kind: Kind::Whole,
        required: true,
    },
    Key {
        name: KeyName::Budget,
        kind: Kind::Whole,
        required: false,
    },
    Key {
        name: KeyName::Cache,
        kind: Kind::Whole,
        required: false,
    },
    Key {
        name: KeyName::Kernel,
        kind: Kind::Tables,
        required: true,
    },
    Key {
        name: KeyName::Program,
        kind: Kind::Tables,
        required: false,
    },
    Key {
        name: KeyName::Start,
        kind: Kind::Tables,
        required: false,
    },
    Key {
        name: KeyName::Link,
        kind: Kind::Tables,
        required: false,
    },
    Key {
        name: KeyName::File,
        kind: Kind::Tables,
        required: false,
    },
    Key {
        name: KeyName::Evict,
        kind: Kind::Tables,
        required: false,
    },
];

/// The keys of a kernel.
const KERNEL: [Key; 2] = [
    Key {
        name: KeyName::Name,
        kind: Kind::Text,
        required: true,
    },
    Key {
        name: KeyName::Serves,
        kind: Kind::Texts,
        required: false,
    },
];

/// The keys of a program.
const PROGRAM: [Key; 2] = [
    Key {
        name: KeyName::Name,
        kind: Kind::Text,
        required: true,
    },
    Key {
        name: KeyName::Text,
        kind: Kind::Text,
        required: true,
    },
];

/// The keys of a start.
const START: [Key; 3] = [
    Key {
        name: KeyName::Host,
        kind: Kind::Text,
        required: true,
    },
    Key {
        name: KeyName::Program,
        kind: Kind::Text,
        required: true,
    },
    Key {
        name: KeyName::Arg,
        kind: Kind::Whole,
        required: false,
    },
];

/// The keys of a file; version 1 has the first three.
const FILE: [Key; 4] = [
    Key {
        name: KeyName::Path,
        kind: Kind::Text,
        required: true,
    },
    Key {
        name: KeyName::Text,
        kind: Kind::Text,
        required: false,
    },
    Key {
        name: KeyName::Repeat,
        kind: Kind::Whole,
        required: false,
    },
    Key {
        name: KeyName::Append,
        kind: Kind::Truth,
        required: false,
    },
];

/// The keys of a fault of the link.
const LINK: [Key; 6] = [
    Key {
        name: KeyName::From,
        kind: Kind::Text,
        required: true,
    },
    Key {
        name: KeyName::To,
        kind: Kind::Text,
        required: true,
    },
    Key {
        name: KeyName::First,
        kind: Kind::Whole,
        required: false,
    },
    Key {
        name: KeyName::Every,
        kind: Kind::Whole,
        required: false,
    },
    Key {
        name: KeyName::Count,
        kind: Kind::Whole,
        required: false,
    },
    Key {
        name: KeyName::Fate,
        kind: Kind::Text,
        required: false,
    },
];

/// The keys of an eviction.
const EVICT: [Key; 2] = [
    Key {
        name: KeyName::Host,
        kind: Kind::Text,
        required: true,
    },
    Key {
        name: KeyName::After,
        kind: Kind::Whole,
        required: true,
    },
];

/// The keys that stand at the top of a cluster file, in order.
pub fn top_keys() -> &'static [Key]
    ensures { result.now ≡ top_keys }
{
    &TOP
}

/// The keys that a table of the section may have, in order. `is_two` says whether the file has version 2.
pub fn keys_of(is_two: bool, section: Section) -> &'static [Key]
    ensures { result.now ≡ keys_of is_two section }
{
    match section {
        Section::Kernel => &KERNEL,
        Section::Program => &PROGRAM,
        Section::Start => &START,
        Section::File if is_two => &FILE,
        Section::File => &FILE[..3],
        Section::Link => &LINK,
        Section::Evict => &EVICT,
    }
}
