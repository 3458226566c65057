ghost use Rattle.std.specs.Prelude.{◌≡◌, ◌<◌, ℕ, List, Option, Some, refl, IfOk, slice_index};
ghost use Rattle.sprite_ids.proofs.ListLaws.{some_is};

use sprite_ids::{Bytes, NoMemory};
use std::alloc::Global;

/// A value that travels as bytes (this project).
///
/// What was spelled is read again, and nothing else reads as it: each message has one spelling.
pub trait Message: Sized {
    /// Whether it has a spelling: its numbers are in their ranges, and none of its texts and lists is too long.
    ghost is_message: { Self → Type 0 };

    ghost spelling: { Self → List ℕ };

    ghost reading: { List ℕ → Option Self };

    /// The message's bytes. The one error is want of memory, which is also the answer where a text or a list is too long to
    /// be spelled: so what is spelled is a message.
    fn spell(&self, alloc: Global) -> Result<Vec<u8>, NoMemory>
        ensures bytes { IfOk result (λ bytes. bytes.items ≡ spelling self.now) }
        ensures known { IfOk result (λ _. is_message self.now) };

    /// The message that is spelled so; None exactly where none is. The one error is want of memory.
    fn read(alloc: Global, bytes: &[u8]) -> Result<Option<Self>, NoMemory>
        ensures { IfOk result (λ message. message ≡ reading bytes.now) };

    ghost again: { (message : Self) → is_message message → reading (spelling message) ≡ Some message };

    ghost alone: { (bytes : List ℕ) (message : Self) → ((i : ℕ) → slice_index bytes i < 256) → reading bytes ≡ Some message → (bytes ≡ spelling message) × is_message message };
}

/// Bytes are spelled as they are.
impl Message for Bytes {
    ghost is_message = { λ bytes. Unit {0} };

    ghost spelling = { λ bytes. bytes };

    ghost reading = { λ bytes. Some bytes };

    ghost again = { λ message given. refl };

    ghost alone = { λ bytes message small e. (some_is bytes message e, tt) };

    fn spell(&self, alloc: Global) -> Result<Vec<u8>, NoMemory> {
        Ok(Vec::from_slice(alloc, self.as_slice())?)
    }

    fn read(alloc: Global, bytes: &[u8]) -> Result<Option<Bytes>, NoMemory> {
        Ok(Some(Bytes::of_slice(alloc, bytes)?))
    }
}
