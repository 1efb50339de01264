//! A text that is written straight into a buffer.
ghost use Rattle.std.specs.Prelude.{◌≡◌, ◌+◌, ◌≤◌, ◌++◌, ℕ, List, length, take};

/// A text that writes itself at a place of a buffer, in front of room that it may need and then leaves.
pub trait Piece {
    /// Its bytes.
    ghost text: { Self → List ℕ };

    /// The most bytes that it writes.
    ghost room: { Self → ℕ };

    /// The most bytes that it writes.
    fn room(&self) -> usize
        ensures { result ≡ room self.now };

    /// Writes its text at a place, and answers the place behind it. What stood before the place stays, and what stands
    /// behind the text has no meaning.
    fn write_at(&self, into: &mut [u8], at: usize) -> usize
        requires room { at + room self.now ≤ length into.old }
        ensures text { take result into.new ≡ take at into.old ++ text self.now }
        ensures most { result ≤ at + room self.now };
}
