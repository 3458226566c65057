ghost use Rattle.std.specs.Prelude.{◌≡◌, ◌||◌, option_map};
ghost use Rattle.std.specs.List.{list_any};
ghost use Rattle.file_views.specs.Streams.{same_stream};
ghost use Rattle.restart_views.specs.Restarts.{doer, opens_stream, is_move, is_apart, keeps_stream, is_taken, is_barred};
ghost use Rattle.file_views.specs.declared.Open.{Open};

use crate::claiming::place;
use crate::keeping::same_stream;
use file_views::{FileStep, Open};
use restart_views::Kept;
use sprite_ids::{Kernel, StreamNo};

// The kernel that does the step.
fn doer(step: &FileStep) -> Option<Kernel>
    ensures { result ≡ doer step.now }
{
    match step {
        FileStep::Opening { kernel, .. } => Some(*kernel),
        FileStep::Closing { kernel, .. } => Some(*kernel),
        FileStep::Reading { kernel, .. } => Some(*kernel),
        FileStep::Writing { kernel, .. } => Some(*kernel),
        FileStep::Append { kernel, .. } => Some(*kernel),
        FileStep::WritingBack { kernel, .. } => Some(*kernel),
        _ => None,
    }
}

// The stream that the step opens.
fn opens_stream(step: &FileStep) -> Option<StreamNo>
    ensures { result ≡ opens_stream step.now }
{
    match step {
        FileStep::Opening { stream, .. } => Some(*stream),
        _ => None,
    }
}

fn is_move(step: &FileStep) -> bool
    ensures { result ≡ is_move step.now }
{
    matches!(step, FileStep::Moving { .. })
}

// Whether the kernel keeps something by itself.
fn is_apart(kept: &[Option<Kept>], kernel: Option<Kernel>) -> bool
    ensures { result ≡ is_apart kept.now kernel }
{
    let Some(kernel) = kernel else {
        return false;
    };
    let at = place(kernel);
    at < kept.len() && kept[at].is_some()
}

fn keeps_stream(stream: &StreamNo, kept: &Option<Kept>) -> bool
    ensures { result ≡ keeps_stream stream.now kept.now }
{
    match kept {
        Some(one) => has_open(stream, one.streams.as_slice()),
        None => false,
    }
}

fn has_open(stream: &StreamNo, opens: &[Open]) -> bool
    ensures { result ≡ list_any (λ (other : Open). same_stream stream.now other.stream) opens.now }
{
    opens.iter().any(|other| same_stream(stream, &other.stream))
}

fn any_keeps(stream: &StreamNo, kept: &[Option<Kept>]) -> bool
    ensures { result ≡ list_any (keeps_stream stream.now) kept.now }
{
    kept.iter().any(|one| keeps_stream(stream, one))
}

// Whether some kernel keeps the stream by itself.
fn is_taken(kept: &[Option<Kept>], stream: Option<StreamNo>) -> bool
    ensures { result ≡ is_taken kept.now stream }
{
    match stream {
        Some(stream) => any_keeps(&stream, kept),
        None => false,
    }
}

/// Whether the step isn't possible while these keep something by themselves: a move, a step of one of them, or an open of a stream
/// that one of them keeps.
pub(crate) fn is_barred(kept: &[Option<Kept>], step: &FileStep) -> bool
    ensures { result ≡ is_barred kept.now step.now }
{
    let apart = is_apart(kept, doer(step));
    let taken = is_taken(kept, opens_stream(step));
    is_move(step) || (apart || taken)
}
