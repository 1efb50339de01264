//! Further words: those of a component past its first two. Components past the end of the list have none.
ghost use Rattle.std.specs.Prelude.{ℕ, ◌≡◌, ◌≢◌, ◌<◌, ◌≤◌, ◌+◌, ◌^◌, bit_and, bit_or, bit_xor, count_ones, length, IfOk, OnOk, OnErr};
ghost use Rattle.std.specs.Bool.{OnTrue};
ghost use Rattle.bit_words.specs.{Words.{bits_of_words}, Further.{further_at, further_bits, further_count, IsChangedAt}};

use crate::shared_words::SharedWords;
use crate::words;
use osek_values::{Memory, Seq};
use std::alloc::Global;

/// The further words of a component.
pub fn of(more: &Seq<SharedWords>, component: usize) -> &[u64]
    ensures { result.now ≡ further_at more.now component }
{
    if component < more.len() {
        return more.at(component).as_slice();
    }
    &[]
}

// makes room for the words of so many components, and changes none
fn make_room(more: &mut Seq<SharedWords>, count: usize) -> Result<(), Memory>
    ensures room { OnOk result (count ≤ length more.new) }
    ensures few { (n : ℕ) → length more.old ≤ n → count ≤ n → length more.new ≤ n }
    ensures same { (k : ℕ) → further_at more.new k ≡ further_at more.old k }
{
    for _place in more.len()..count {
        more.push(SharedWords::none())?;
    }
    Ok(())
}

/// Clears a component's bits that other words lack.
pub fn keep(
    alloc: Global,
    more: &mut Seq<SharedWords>,
    component: usize,
    other: &[u64],
) -> Result<(), Memory>
    ensures others { IsChangedAt more.old component more.new }
    ensures bits { OnOk result (further_bits more.new component ≡ bit_and (further_bits more.old component) (bits_of_words other.now)) }
    ensures err { OnErr result (more.new ≡ more.old) }
{
    if component >= more.len() {
        return Ok(());
    }
    let words = more.at_mut(component);
    words.keep(alloc, other)?;
    Ok(())
}

/// Clears a component's bits that other words have.
pub fn leave_out(
    alloc: Global,
    more: &mut Seq<SharedWords>,
    component: usize,
    other: &[u64],
) -> Result<(), Memory>
    ensures others { IsChangedAt more.old component more.new }
    ensures bits { OnOk result (further_bits more.new component ≡ bit_xor (further_bits more.old component) (bit_and (further_bits more.old component) (bits_of_words other.now))) }
    ensures err { OnErr result (more.new ≡ more.old) }
{
    if component >= more.len() {
        return Ok(());
    }
    let words = more.at_mut(component);
    words.leave_out(alloc, other)?;
    Ok(())
}

// clears all further bits of a component
fn clear(more: &mut Seq<SharedWords>, component: usize)
    ensures others { IsChangedAt more.old component more.new }
    ensures bits { further_bits more.new component ≡ 0 }
{
    if component >= more.len() {
        return;
    }
    more.put(component, SharedWords::none());
}

// makes a component's bits those of other words
fn assign(
    alloc: Global,
    more: &mut Seq<SharedWords>,
    component: usize,
    other: &[u64],
) -> Result<(), Memory>
    requires { component < length more.old }
    ensures others { IsChangedAt more.old component more.new }
    ensures bits { OnOk result (further_bits more.new component ≡ bits_of_words other.now) }
    ensures err { OnErr result (further_bits more.new component ≡ further_bits more.old component) }
{
    let copy = words::copied(alloc, other)?;
    let words = SharedWords::of(alloc, copy)?;
    more.put(component, words);
    Ok(())
}

/// Makes a component's bits those of other words. Where memory is wanted no bit changes.
pub fn put_words(
    alloc: Global,
    more: &mut Seq<SharedWords>,
    component: usize,
    other: &[u64],
) -> Result<(), Memory>
    requires { component + 1 < 2 ^ 64 }
    ensures few { (n : ℕ) → length more.old ≤ n → component < n → length more.new ≤ n }
    ensures others { (k : ℕ) → k ≢ component → further_bits more.new k ≡ further_bits more.old k }
    ensures bits { OnOk result (further_bits more.new component ≡ bits_of_words other.now) }
    ensures err { OnErr result (further_bits more.new component ≡ further_bits more.old component) }
{
    if other.is_empty() {
        clear(more, component);
        return Ok(());
    }
    make_room(more, component + 1)?;
    assign(alloc, more, component, other)?;
    Ok(())
}

// sets the bits of other words too
fn join_at(
    alloc: Global,
    more: &mut Seq<SharedWords>,
    component: usize,
    other: &SharedWords,
) -> Result<u64, Memory>
    requires known { component < length more.old }
    requires few { count_ones (bits_of_words other.now) < 2 ^ 64 }
    ensures others { IsChangedAt more.old component more.new }
    ensures bits { OnOk result (further_bits more.new component ≡ bit_or (further_bits more.old component) (bits_of_words other.now)) }
    ensures count { IfOk result (λ added. further_count more.new ≡ further_count more.old + added) }
    ensures few { IfOk result (λ added. added ≤ count_ones (bits_of_words other.now)) }
    ensures err { OnErr result (more.new ≡ more.old) }
{
    if words::have_all(of(more, component), other.as_slice()) {
        return Ok(0);
    }
    join_new_at(alloc, more, component, other)
}

// the same where some bit is known to be new
fn join_new_at(
    alloc: Global,
    more: &mut Seq<SharedWords>,
    component: usize,
    other: &SharedWords,
) -> Result<u64, Memory>
    requires known { component < length more.old }
    requires few { count_ones (bits_of_words other.now) < 2 ^ 64 }
    ensures others { IsChangedAt more.old component more.new }
    ensures bits { OnOk result (further_bits more.new component ≡ bit_or (further_bits more.old component) (bits_of_words other.now)) }
    ensures count { IfOk result (λ added. further_count more.new ≡ further_count more.old + added) }
    ensures few { IfOk result (λ added. added ≤ count_ones (bits_of_words other.now)) }
    ensures err { OnErr result (more.new ≡ more.old) }
{
    let words = more.at_mut(component);
    let added = words.join(alloc, other)?;
    Ok(added)
}

// sets the bits of another list's words too, as far as memory goes
fn join_each(
    alloc: Global,
    more: &mut Seq<SharedWords>,
    other: &Seq<SharedWords>,
) -> Result<u64, Memory>
    requires room { length other.now ≤ length more.old }
    requires few { further_count other.now < 2 ^ 64 }
    ensures as_many { OnOk result (length more.new ≡ length more.old) }
    ensures bits { OnOk result ((k : ℕ) → further_bits more.new k ≡ bit_or (further_bits more.old k) (further_bits other.now k)) }
    ensures count { IfOk result (λ added. further_count more.new ≡ further_count more.old + added) }
    ensures few { IfOk result (λ added. added ≤ further_count other.now) }
{
    let mut added = 0;
    for component in 0..other.len() {
        added += join_at(alloc, more, component, other.at(component))?;
    }
    Ok(added)
}

// the first component from one on that lacks a bit of another list's words, or one past these
fn first_lacking(more: &Seq<SharedWords>, other: &Seq<SharedWords>, from: usize) -> usize
    ensures before { (k : ℕ) → from ≤ k → k < result → further_bits more.now k ≡ bit_or (further_bits more.now k) (further_bits other.now k) }
    ensures all { length other.now ≤ result → (k : ℕ) → from ≤ k → further_bits more.now k ≡ bit_or (further_bits more.now k) (further_bits other.now k) }
{
    for component in from..other.len() {
        if !words::have_all(of(more, component), other.at(component).as_slice()) {
            return component;
        }
    }
    other.len()
}

/// Sets the bits of another list's further words too, and tells how many were not set. Where memory is wanted no bit changes.
pub fn join(
    alloc: Global,
    more: &mut Seq<SharedWords>,
    other: &Seq<SharedWords>,
) -> Result<u64, Memory>
    requires { further_count other.now < 2 ^ 64 }
    ensures few { (n : ℕ) → length more.old ≤ n → length other.now ≤ n → length more.new ≤ n }
    ensures bits { OnOk result ((k : ℕ) → further_bits more.new k ≡ bit_or (further_bits more.old k) (further_bits other.now k)) }
    ensures count { IfOk result (λ added. further_count more.new ≡ further_count more.old + added) }
    ensures less { IfOk result (λ added. added ≤ further_count other.now) }
    ensures err { OnErr result (more.new ≡ more.old) }
{
    let first = first_lacking(more, other, 0);
    if first >= other.len() {
        return Ok(0);
    }
    // mostly one component alone has more
    if first < more.len() && first_lacking(more, other, first + 1) >= other.len() {
        let added = join_new_at(alloc, more, first, other.at(first))?;
        return Ok(added);
    }
    join_in_copy(alloc, more, other)
}

// the same in a copy, which is given up where memory is wanted
fn join_in_copy(
    alloc: Global,
    more: &mut Seq<SharedWords>,
    other: &Seq<SharedWords>,
) -> Result<u64, Memory>
    requires { further_count other.now < 2 ^ 64 }
    ensures few { (n : ℕ) → length more.old ≤ n → length other.now ≤ n → length more.new ≤ n }
    ensures bits { OnOk result ((k : ℕ) → further_bits more.new k ≡ bit_or (further_bits more.old k) (further_bits other.now k)) }
    ensures count { IfOk result (λ added. further_count more.new ≡ further_count more.old + added) }
    ensures less { IfOk result (λ added. added ≤ further_count other.now) }
    ensures err { OnErr result (more.new ≡ more.old) }
{
    let mut joined = copied(alloc, more)?;
    make_room(&mut joined, other.len())?;
    let added = join_each(alloc, &mut joined, other)?;
    *more = joined;
    Ok(added)
}

/// The same further words again, shared. Mostly there are none.
pub fn copied(alloc: Global, more: &Seq<SharedWords>) -> Result<Seq<SharedWords>, Memory>
    ensures as_many { IfOk result (λ copy. length copy ≡ length more.now) }
    ensures words { IfOk result (λ copy. (k : ℕ) → further_at copy k ≡ further_at more.now k) }
{
    if more.is_empty() {
        return Ok(Seq::new(alloc));
    }
    each_shared(alloc, more)
}

// a list with the same words
#[inline(never)]
fn each_shared(alloc: Global, more: &Seq<SharedWords>) -> Result<Seq<SharedWords>, Memory>
    ensures as_many { IfOk result (λ copy. length copy ≡ length more.now) }
    ensures words { IfOk result (λ copy. (k : ℕ) → further_at copy k ≡ further_at more.now k) }
{
    let mut copy = Vec::with_capacity(alloc, more.len())?;
    for words in more.as_slice() {
        copy.push(words.share()?)?;
    }
    Ok(Seq::of(copy))
}
