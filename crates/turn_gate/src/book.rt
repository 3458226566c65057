ghost use Rattle.std.specs.Prelude.{◌≡◌, length};

/// A value that threads take in turns.
pub trait Book {
    ghost use Rattle.std.specs.Prelude.{ℕ, List};

    /// What never changes about the value.
    type Origin;

    /// What the log holds.
    type Item;

    // What never changes.
    ghost origin: { Self → Self.Origin };

    // What is always true of it.
    ghost holds: { Self → Type 0 };

    // The log, which only grows: each item stands with the number of the seat that added it.
    ghost log: { Self → List (ℕ × Self.Item) };

    /// The log's length, in items.
    fn length(&self) -> u64
        ensures { result ≡ length (log self.now) };
}
