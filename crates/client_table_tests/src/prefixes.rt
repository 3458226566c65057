use prefix_table::Prefixes;
use sprite_ids::Kernel;
use sprite_paths::Path;
use std::alloc::Global;

// A path, its longest known prefix, and the number of the server; no text and 0 where none is known.
type Case = (&'static [u8], &'static [u8], u8);

// Prefixes that are learned, how many are then known, whether the root is one, and what is found.
struct Stage {
    learned: &'static [(&'static [u8], u8)],
    known: usize,
    root: bool,
    found: &'static [Case],
}

static STAGES: [Stage; 3] = [
    Stage {
        learned: &[],
        known: 0,
        root: false,
        found: &[],
    },
    Stage {
        learned: &[(b"/a/b", 2), (b"/ab", 3), (b"/a", 4), (b"/a/b/c/d", 5)],
        known: 4,
        root: false,
        found: &[
            (b"/", b"", 0),
            (b"/b", b"", 0),
            (b"/b/a", b"", 0),
            (b"/abc", b"", 0),
            (b"/a", b"/a", 4),
            (b"/a/x/y", b"/a", 4),
            (b"/a/bc", b"/a", 4),
            (b"/a/b", b"/a/b", 2),
            (b"/a/b/c", b"/a/b", 2),
            (b"/a/b/c/d/e", b"/a/b/c/d", 5),
            (b"/ab/a", b"/ab", 3),
        ],
    },
    Stage {
        learned: &[(b"/", 1), (b"/a/b", 16), (b"/a/b/c", 6)],
        known: 6,
        root: true,
        found: &[
            (b"/", b"/", 1),
            (b"/b/a", b"/", 1),
            (b"/abc", b"/", 1),
            (b"/a/x", b"/a", 4),
            (b"/a/b", b"/a/b", 16),
            (b"/a/b/x", b"/a/b", 16),
            (b"/a/b/c", b"/a/b/c", 6),
            (b"/a/b/c/dd", b"/a/b/c", 6),
            (b"/a/b/c/d", b"/a/b/c/d", 5),
        ],
    },
];

// Learns them in their order; false where there is no memory.
fn learn_all(alloc: Global, prefixes: &mut Prefixes, pairs: &[(&'static [u8], u8)]) -> bool {
    for (text, number) in pairs {
        if !learn(alloc, prefixes, *text, *number) {
            return false;
        }
    }
    true
}

fn learn(alloc: Global, prefixes: &mut Prefixes, text: &[u8], number: u8) -> bool {
    let Some(server) = Kernel::new(number) else {
        return false;
    };
    let Ok(prefix) = Path::clean(alloc, &Path::root(alloc), text) else {
        return false;
    };
    prefixes.learn(prefix, server).is_ok()
}

// Whether it is the path of that text.
fn is_text(alloc: Global, path: &Path, wanted: &[u8]) -> bool {
    let Ok(text) = path.text(alloc) else {
        return false;
    };
    text.as_slice() == wanted
}

// Whether that prefix and that server are found.
fn finds(alloc: Global, prefixes: &Prefixes, case: &Case) -> bool {
    let Ok(path) = Path::clean(alloc, &Path::root(alloc), case.0) else {
        return false;
    };
    match prefixes.server_of(&path) {
        Some((prefix, server)) => server.number() == case.2 && is_text(alloc, prefix, case.1),
        None => case.2 == 0,
    }
}

// Whether each case is found so.
fn finds_all(alloc: Global, prefixes: &Prefixes, cases: &[Case]) -> bool {
    for case in cases {
        if !finds(alloc, prefixes, case) {
            return false;
        }
    }
    true
}

fn knows_root(alloc: Global, prefixes: &Prefixes) -> bool {
    let root = Path::root(alloc);
    prefixes.knows(&root)
}

// Learns the stage's prefixes; whether all is then as it says.
fn stands(alloc: Global, prefixes: &mut Prefixes, stage: &Stage) -> bool {
    learn_all(alloc, prefixes, stage.learned)
        && prefixes.len() == stage.known
        && knows_root(alloc, prefixes) == stage.root
        && finds_all(alloc, prefixes, stage.found)
}

fn stand_all(alloc: Global, prefixes: &mut Prefixes, stages: &[Stage]) -> bool {
    for stage in stages {
        if !stands(alloc, prefixes, stage) {
            return false;
        }
    }
    true
}

// Whether all is as the stages say, one after another.
fn table_stands(alloc: Global, stages: &[Stage]) -> bool {
    let mut prefixes = Prefixes::new(alloc);
    let right = stand_all(alloc, &mut prefixes, stages);
    std::mem::drop(prefixes);
    right
}

#[test]
fn a_path_goes_to_its_longest_prefix(rt: HostRuntime) {
    assert!(rt; table_stands(rt.alloc(), &STAGES));
}
