ghost use Rattle.std.specs.Prelude.{◌≡◌, Ok, None, length};

use crate::failed::Failed;
use crate::sink::Sink;

/// A sink that takes everything, never fails, and doesn't tell what it was given (this project).
#[derive(Clone, Copy, Debug, PartialEq, Eq)]
pub struct NullSink;

impl Sink for NullSink {
    ghost held = { λ _. None };

    ghost faults = { λ _. 0 };

    fn write(&mut self, piece: &[u8]) -> Result<usize, Failed>
        ensures { result ≡ Ok (length piece.now) }
    {
        Ok(piece.len())
    }

    fn faults(&self) -> u64 {
        0
    }
}
