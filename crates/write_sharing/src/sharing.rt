ghost use Rattle.std.specs.Prelude.{◌≡◌, IfOk};
ghost use Rattle.call_journal.specs.Formed.{is_closed_of};
ghost use Rattle.write_sharing.specs.Kept.{TakesSo, is_paid_in, licence_behind, opening_by, pays_last};

use crate::kept::{OpenedAt, Opening, Sharing};
use crate::marks::{has_file, keep_called, keep_grants, keep_licensed, keep_stops, settle};
use crate::opens::{is_last_shared, is_open, keep_opens};
use crate::stops::{is_well_stopped, keep_stopped};
use indexmap::{IndexMap, IndexSet};
use sprite_ids::{FileId, Items, NoMemory, StreamNo};
use std::alloc::Global;
use trace_tables::Tied;
use unix_calls::{Description, Event, Rec};

/// Keeps what the next record tells and asks, and tells whether it keeps the rule, as far as the records up to it tell, and the open
/// that the last one told is paid for. The one error is want of memory; a part may be kept then.
pub(crate) fn take(
    alloc: Global,
    c: &Description,
    sharing: &mut Sharing,
    rec: &Rec,
    tied: &Option<Tied>,
    truncates: bool,
) -> Result<bool, NoMemory>
    ensures { IfOk result (λ fits. TakesSo c.now rec.now tied.now truncates fits sharing.old sharing.new) }
{
    let is_well = is_well_stopped(&sharing.stopped, &sharing.called, rec, tied);
    let opening = opening_by(&sharing.opens, &sharing.grants, &sharing.stops, &rec.event);
    let was_shared = is_last_shared(&sharing.opens, &sharing.last);
    keep_opens(alloc, &mut sharing.opens, &rec.event)?;
    let is_shared = is_last_shared(&sharing.opens, &sharing.last);
    let licence = is_licence(&sharing.last, &rec.event, truncates, was_shared, is_shared);
    let pays = pays_last(&sharing.last, licence);
    settle(&mut sharing.licensed, &sharing.last, licence)?;
    keep_grants(&mut sharing.grants, &sharing.licensed, c, &rec.event)?;
    keep_stops(&mut sharing.stops, &sharing.licensed, c, &rec.event)?;
    keep_licensed(&mut sharing.licensed, &sharing.opens, &rec.event)?;
    keep_called(&mut sharing.called, &rec.event)?;
    keep_stopped(&mut sharing.stopped, &rec.event)?;
    sharing.last = opening;
    Ok(is_well && pays)
}

// What an event opens.
fn opening_by(
    opens: &IndexMap<FileId, Items<OpenedAt>>,
    grants: &IndexSet<FileId>,
    stops: &IndexSet<FileId>,
    event: &Event,
) -> Option<Opening>
    ensures { result ≡ opening_by event.now opens.now.entries grants.now.keys stops.now.keys }
{
    match event {
        Event::Opened { file, stream, .. } => Some(Opening {
            file: *file,
            stream: *stream,
            was_open: is_open(opens, file),
            is_due: has_file(grants, file) || has_file(stops, file),
        }),
        _ => None,
    }
}

// Whether a licence stands behind the last record's open, if it tells one: behind it the file is shared for writing; where the event
// closes that very stream, behind that; or the event is that open's entry, and truncates what was open before.
fn is_licence(
    last: &Option<Opening>,
    event: &Event,
    truncates: bool,
    was_shared: bool,
    is_shared: bool,
) -> bool
    ensures { result ≡ licence_behind last.now event.now truncates was_shared is_shared }
{
    match last {
        Some(opening) => if is_closed_of(&opening.file, &opening.stream, event) {
            is_shared
        } else {
            was_shared || opening.was_open && truncates
        },
        None => false,
    }
}

// Whether an event closes that stream of a file.
fn is_closed_of(file: &FileId, stream: &StreamNo, event: &Event) -> bool
    ensures { result ≡ is_closed_of file.now stream.now event.now }
{
    match event {
        Event::Closed {
            file: closed,
            stream: left,
            ..
        } => closed == file && left == stream,
        _ => false,
    }
}

// Whether the last record's open, if it tells one, has the licence that is due behind it.
fn pays_last(last: &Option<Opening>, licence: bool) -> bool
    ensures { result ≡ pays_last last.now licence }
{
    match last {
        Some(opening) => !opening.is_due || licence,
        None => true,
    }
}

/// Whether nothing is asked of further records.
pub(crate) fn is_paid(sharing: &Sharing) -> bool
    ensures { result ≡ is_paid_in sharing.now }
{
    let is_shared = is_last_shared(&sharing.opens, &sharing.last);
    sharing.grants.len() == 0 && pays_last(&sharing.last, is_shared)
}
