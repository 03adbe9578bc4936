//! What a value says of its past.
ghost use Rattle.std.specs.Prelude.{◌≡◌, List, length};

/// A value with a past, a list of entries to which later values only add.
pub trait Grows {
    type Entry: 'static;

    /// Its entries, the oldest first.
    ghost past: { Self → List Self.Entry };

    /// What is true of the past of every value.
    ghost lawful: { List Self.Entry → Type 0 };

    /// The number of entries of the past.
    fn length(&self) -> u64
        ensures length { result ≡ length (past self.now) }
        ensures lawful { lawful (past self.now) };
}
