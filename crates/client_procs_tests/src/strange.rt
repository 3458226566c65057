use crate::bodies::Wants::{Comes, Launches, Migrates};
use crate::script::Step::{Again, Asked, Issue, Needs, Turns};
use crate::script::{Row, first_other, is_none};
use crate::told::Asked as Ask;
use crate::told::Said::{One, Silence, Two};
use crate::told::Told::{Calls, Freezes, Gives};
use crate::words::Does::{Getpid, Home, Migrate};
use crate::words::Name::SecondClient;
use crate::words::Word::{Fork, Wait};

// What no right cluster brings to a kernel: nothing is done. A process is inside its `wait`; the call of another one has the number
// of its last; a page is here, or none of the image's; and a process that comes is here, or is on its way from here.
static STRANGE: [Row; 14] = [
    (
        Issue(2001, Home(Fork)),
        [3, 3, 0, 0],
        One(Gives(2001, 2003, 0)),
    ),
    (Issue(2001, Home(Wait)), [1, 3, 0, 0], Silence),
    (Issue(2001, Getpid), [0, 3, 0, 0], Silence),
    (Needs(2001), [0, 3, 0, 0], Silence),
    (Again(2002, Getpid), [0, 3, 0, 0], Silence),
    (Turns(2002, 0), [0, 3, 0, 0], Silence),
    (Turns(2002, 1), [0, 3, 0, 0], Silence),
    (Issue(2002, Getpid), [3, 3, 0, 0], One(Gives(2002, 2002, 0))),
    (Again(2002, Getpid), [0, 3, 0, 0], Silence),
    (Asked(1, Comes(2002, 5)), [0, 3, 0, 0], Silence),
    (
        Issue(2002, Migrate(SecondClient)),
        [4, 2, 1, 1],
        Two(Calls(Ask::PageOut(2002, 4096), 1, false), Freezes(2002)),
    ),
    (Asked(2, Comes(2002, 5)), [0, 2, 1, 1], Silence),
    (Asked(3, Migrates(2002, 2, true)), [0, 2, 1, 1], Silence),
    (Asked(4, Launches(2002, 2, 1)), [0, 2, 1, 1], Silence),
];

#[test]
fn strange_inputs(rt: HostRuntime) {
    is_none(&rt, first_other(rt.alloc(), 0, &STRANGE));
}
