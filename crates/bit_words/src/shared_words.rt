//! Words that copies share.
ghost use Rattle.std.specs.Prelude.{◌≡◌};

use crate::words;
use osek_values::Memory;
use std::alloc::Global;
use std::marker::Model;
use std::rc::Rc;

/// Words of 64 bits, with a bit for each number. Copies share them, until one of these changes. No words take no memory.
#[derive(Drop)]
pub struct SharedWords {
    words: Option<Rc<Vec<u64>>>,
}

impl Model for SharedWords {
    ghost use Rattle.std.specs.{Prelude.{ℕ, List, []}, Option.{option_map_or}};

    ghost Value = { List ℕ };

    ghost view = { λ s. option_map_or (λ shared. shared.value.items) s.words [] };
}

// the bits of two, and how many of them the first lacks
#[derive(Drop)]
struct JoinedWords {
    words: SharedWords,
    added: u64,
}

impl SharedWords {
    ghost use Rattle.std.specs.{Prelude.{[], ◌≡◌, ◌<◌, ◌≤◌, ◌+◌, ◌^◌, bit_and, bit_or, bit_xor, count_ones, IfOk, IfSome, IfNone, OnOk, OnErr}, Bool.{OnTrue, OnFalse}};
    ghost use Rattle.bit_words.specs.Words.{bits_of_words};

    /// No words.
    pub fn none() -> SharedWords
        ensures { result ≡ [] }
    {
        SharedWords { words: None }
    }

    /// Words that none shares yet. They take no more memory than they need.
    pub fn of(alloc: Global, words: Vec<u64>) -> Result<SharedWords, Memory>
        ensures { IfOk result (λ shared. shared ≡ words.items) }
    {
        if words.is_empty() {
            return Ok(SharedWords::none());
        }
        let mut words = words;
        words.shrink_to_fit();
        let shared = Rc::new(alloc, words)?;
        Ok(SharedWords {
            words: Some(shared),
        })
    }

    /// The words.
    pub fn as_slice(&self) -> &[u64]
        ensures { result.now ≡ self.now }
    {
        match &self.words {
            None => &[],
            Some(words) => words.as_slice(),
        }
    }

    /// The same words for another one. None is copied.
    pub fn share(&self) -> Result<SharedWords, Memory>
        ensures { IfOk result (λ shared. shared ≡ self.now) }
    {
        match &self.words {
            None => Ok(SharedWords::none()),
            Some(words) => {
                let shared = words.clone()?;
                Ok(SharedWords {
                    words: Some(shared),
                })
            }
        }
    }

    /// Clears the bits that other words lack. Words that no copy shares are changed where they stand.
    #[inline(never)]
    pub fn keep(&mut self, alloc: Global, other: &[u64]) -> Result<(), Memory>
        ensures bits { OnOk result (bits_of_words self.new ≡ bit_and (bits_of_words self.old) (bits_of_words other.now)) }
        ensures err { OnErr result (self.new ≡ self.old) }
    {
        if other.is_empty() {
            *self = SharedWords::none();
            return Ok(());
        }
        if self.keep_own(other) {
            return Ok(());
        }
        if words::have_all(other, self.as_slice()) {
            return Ok(());
        }
        *self = self.kept(alloc, other)?;
        Ok(())
    }

    // changes words that no copy shares where they stand
    fn keep_own(&mut self, other: &[u64]) -> bool
        ensures own { OnTrue result (bits_of_words self.new ≡ bit_and (bits_of_words self.old) (bits_of_words other.now)) }
        ensures shared { OnFalse result (self.new ≡ self.old) }
    {
        let Some(shared) = &mut self.words else {
            return false;
        };
        let Some(own) = Rc::get_mut(shared) else {
            return false;
        };
        words::keep_trimmed(own, other);
        true
    }

    // those of the bits that other words have too
    fn kept(&self, alloc: Global, other: &[u64]) -> Result<SharedWords, Memory>
        ensures { IfOk result (λ kept. bits_of_words kept ≡ bit_and (bits_of_words self.now) (bits_of_words other.now)) }
    {
        let mut kept = words::copied(alloc, self.as_slice())?;
        words::keep_trimmed(&mut kept, other);
        SharedWords::of(alloc, kept)
    }

    /// Clears the bits that other words have. Words that no copy shares are changed where they stand.
    #[inline(never)]
    pub fn leave_out(&mut self, alloc: Global, other: &[u64]) -> Result<(), Memory>
        ensures bits { OnOk result (bits_of_words self.new ≡ bit_xor (bits_of_words self.old) (bit_and (bits_of_words self.old) (bits_of_words other.now))) }
        ensures err { OnErr result (self.new ≡ self.old) }
    {
        if !words::meet(self.as_slice(), other) {
            return Ok(());
        }
        if self.leave_out_own(other) {
            return Ok(());
        }
        *self = self.without(alloc, other)?;
        Ok(())
    }

    // changes words that no copy shares where they stand
    fn leave_out_own(&mut self, other: &[u64]) -> bool
        ensures own { OnTrue result (bits_of_words self.new ≡ bit_xor (bits_of_words self.old) (bit_and (bits_of_words self.old) (bits_of_words other.now))) }
        ensures shared { OnFalse result (self.new ≡ self.old) }
    {
        let Some(shared) = &mut self.words else {
            return false;
        };
        let Some(own) = Rc::get_mut(shared) else {
            return false;
        };
        words::leave_out_trimmed(own, other);
        true
    }

    // those of the bits that other words lack
    fn without(&self, alloc: Global, other: &[u64]) -> Result<SharedWords, Memory>
        ensures { IfOk result (λ left. bits_of_words left ≡ bit_xor (bits_of_words self.now) (bit_and (bits_of_words self.now) (bits_of_words other.now))) }
    {
        let mut left = words::copied(alloc, self.as_slice())?;
        words::leave_out_trimmed(&mut left, other);
        SharedWords::of(alloc, left)
    }

    /// Sets the bits of other words too, and tells how many were not set. Where these become the other's words, they are shared;
    /// else words that no copy shares are changed where they stand.
    #[inline(never)]
    pub fn join(&mut self, alloc: Global, other: &SharedWords) -> Result<u64, Memory>
        requires { count_ones (bits_of_words other.now) < 2 ^ 64 }
        ensures bits { OnOk result (bits_of_words self.new ≡ bit_or (bits_of_words self.old) (bits_of_words other.now)) }
        ensures count { IfOk result (λ added. count_ones (bits_of_words self.new) ≡ count_ones (bits_of_words self.old) + added) }
        ensures few { IfOk result (λ added. added ≤ count_ones (bits_of_words other.now)) }
        ensures err { OnErr result (self.new ≡ self.old) }
    {
        if words::have_all(other.as_slice(), self.as_slice()) {
            return self.give_way(other);
        }
        if let Some(added) = self.join_own(other.as_slice()) {
            return Ok(added);
        }
        let both = self.joined(alloc, other.as_slice())?;
        *self = both.words;
        Ok(both.added)
    }

    // shares the other's words, which have all these bits
    fn give_way(&mut self, other: &SharedWords) -> Result<u64, Memory>
        requires few { count_ones (bits_of_words other.now) < 2 ^ 64 }
        requires all { bits_of_words other.now ≡ bit_or (bits_of_words other.now) (bits_of_words self.old) }
        ensures bits { OnOk result (bits_of_words self.new ≡ bit_or (bits_of_words self.old) (bits_of_words other.now)) }
        ensures count { IfOk result (λ added. count_ones (bits_of_words self.new) ≡ count_ones (bits_of_words self.old) + added) }
        ensures few { IfOk result (λ added. added ≤ count_ones (bits_of_words other.now)) }
        ensures err { OnErr result (self.new ≡ self.old) }
    {
        let shared = other.share()?;
        let added = words::count(other.as_slice()) - words::count(self.as_slice());
        *self = shared;
        Ok(added)
    }

    // changes words that no copy shares where they stand, if there is room
    fn join_own(&mut self, other: &[u64]) -> Option<u64>
        requires { count_ones (bits_of_words other.now) < 2 ^ 64 }
        ensures bits { IfSome result (λ added. bits_of_words self.new ≡ bit_or (bits_of_words self.old) (bits_of_words other.now)) }
        ensures count { IfSome result (λ added. count_ones (bits_of_words self.new) ≡ count_ones (bits_of_words self.old) + added) }
        ensures few { IfSome result (λ added. added ≤ count_ones (bits_of_words other.now)) }
        ensures shared { IfNone result (self.new ≡ self.old) }
    {
        let Some(shared) = &mut self.words else {
            return None;
        };
        let Some(own) = Rc::get_mut(shared) else {
            return None;
        };
        if own.len() < other.len() {
            return None;
        }
        Some(words::join_each(own.as_mut_slice(), other))
    }

    // the bits of both
    fn joined(&self, alloc: Global, other: &[u64]) -> Result<JoinedWords, Memory>
        requires { count_ones (bits_of_words other.now) < 2 ^ 64 }
        ensures bits { IfOk result (λ both. bits_of_words both.words ≡ bit_or (bits_of_words self.now) (bits_of_words other.now)) }
        ensures count { IfOk result (λ both. count_ones (bits_of_words both.words) ≡ count_ones (bits_of_words self.now) + both.added) }
        ensures few { IfOk result (λ both. both.added ≤ count_ones (bits_of_words other.now)) }
    {
        let mut both = words::copied(alloc, self.as_slice())?;
        words::widen_exactly(&mut both, other.len())?;
        let added = words::join_each(both.as_mut_slice(), other);
        let words = SharedWords::of(alloc, both)?;
        Ok(JoinedWords { words, added })
    }
}
