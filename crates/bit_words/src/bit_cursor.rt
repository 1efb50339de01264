//! A place among the numbers whose bits are set.
ghost use Rattle.std.specs.Prelude.{ℕ, ◌≡◌, ◌<◌, ◌%◌};
ghost use Rattle.bit_words.specs.Cursors.{IsBefore, IsStep};

/// The word whose first number is `base`, with the bits alone that are to come.
#[derive(Clone, Copy)]
pub struct BitCursor {
    pub base: usize,
    pub rest: u64,
}

impl BitCursor {
    /// Goes past the next number of its word, and tells it.
    #[inline(always)]
    pub fn step(&mut self) -> usize
        requires some { 0 < self.old.rest }
        requires word { self.old.base % 64 ≡ 0 }
        ensures word { self.new.base ≡ self.old.base }
        ensures step { (bits from : ℕ) → IsBefore bits from self.old → IsStep bits from result self.new }
    {
        let bit = self.rest.trailing_zeros() as usize;
        self.rest = self.rest ^ (1 << bit);
        self.base + bit
    }
}
