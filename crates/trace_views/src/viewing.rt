ghost use Rattle.std.specs.Prelude.{◌≡◌, ◌≤◌, IfOk};
ghost use Rattle.unix_calls.specs.Lawful.{Lawful};
ghost use Rattle.trace_views.specs.Views.{ViewsTo, views_of};

use crate::views::Views;
use sharing_rules::Following;
use sprite_ids::NoMemory;
use std::alloc::Global;
use trace_bursts::Counts;
use trace_forms::MadeStreams;
use trace_walk::{Both, End, Walked, walk};
use unix_calls::{Description, Rec};
use write_rules::Marking;

/// What a trace's journal comes to, with what is told of its records (this project).
#[derive(Drop)]
pub enum Viewed {
    /// One Unix kernel gives it, and it leads there.
    Legal(End, Views),
    /// One Unix kernel gives the entries before this one, counted from 1, and not this one.
    NotLegal(u32),
    /// One Unix kernel gives the entries before this one, counted from 1, and its process's way to its call passes the bound of
    /// instructions.
    Steps(u32),
}

/// Makes the entries of a trace one after another, from the start of a described cluster, whose processes may do at most `most`
/// instructions in all, and tells of its records what the rules look at (this project).
///
/// `NotLegal` and `Steps` come exactly where a check of the trace's journal answers them. The one error is want of memory, which is
/// also the answer where the entries would be more than 2^32, or the bursts of a process would do 2^64 instructions.
pub fn view(alloc: Global, c: &Description, trace: &[Rec], most: u64) -> Result<Viewed, NoMemory>
    requires lawful { Lawful c.now }
    requires bound { most ≤ 40000000000 }
    ensures { IfOk result (ViewsTo c.now most trace.now) }
{
    let first = Following::new(alloc, c)?;
    let mut watch = Both {
        first,
        second: Both {
            first: MadeStreams::new(alloc),
            second: Both {
                first: Marking::new(alloc),
                second: Counts::new(alloc),
            },
        },
    };
    match walk(alloc, c, &mut watch, trace, most)? {
        Walked::Legal(end) => Ok(Viewed::Legal(end, views_of(watch))),
        Walked::NotLegal(place) => Ok(Viewed::NotLegal(place)),
        Walked::Steps(place) => Ok(Viewed::Steps(place)),
    }
}

// What the watches of all records told.
fn views_of(watch: Both<Following, Both<MadeStreams, Both<Marking, Counts>>>) -> Views
    ensures { result ≡ views_of watch.first watch.second.first watch.second.second.first watch.second.second.second }
{
    let Both {
        first: following,
        second: others,
    } = watch;
    let Both {
        first: made,
        second: others,
    } = others;
    let Both {
        first: marking,
        second: counts,
    } = others;
    let facts = following.facts;
    let telling = following.telling;
    Views {
        openings: made.made,
        ties: telling.ties,
        callers: telling.callers,
        marks: marking.marks,
        facts,
        counts,
    }
}
