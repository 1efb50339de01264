//! Values that are joined until they stop growing.
ghost use Rattle.std.specs.Prelude.{◌≡◌, ◌+◌, ◌≤◌, ℕ, IfOk, OnOk};

use osek_values::Memory;
use std::alloc::Global;

/// A partial order in which a chain grows only so often: each growth raises the rank, which never passes the height. The join
/// is what the clauses of `join_into` say.
pub trait Lattice {
    /// A value that the type is made for.
    ghost is_element: { Self → Type 0 };

    /// Two values that may be compared and joined.
    ghost alike: { Self → Self → Type 0 };

    ghost is_below: { Self → Self → Type 0 };

    /// How much a value has grown, and how much it can grow.
    ghost rank: { Self → ℕ };

    ghost height: { Self → ℕ };

    /// Another value that is the same.
    fn copy(&self, alloc: Global) -> Result<Self, Memory>
        ensures { IfOk result (λ copy. copy ≡ self.now) };

    /// Joins the other value in, and tells by how much the rank rose. Where memory is wanted the value lies between
    /// what it was and the join.
    fn join_into(&mut self, other: &Self) -> Result<u64, Memory>
        requires element { is_element self.old }
        requires of_element { is_element other.now }
        requires alike { alike self.old other.now }
        ensures element { is_element self.new }
        ensures stays_alike { alike self.old self.new }
        ensures grows { is_below self.old self.new }
        ensures least { (z : Self) → is_below self.old z → is_below other.now z → is_below self.new z }
        ensures joins { OnOk result (is_below other.now self.new) }
        ensures count { IfOk result (λ n. rank self.new ≡ rank self.old + n) }
        ensures same { IfOk result (λ n. n ≡ 0 → self.new ≡ self.old) };

    ghost reflexive: { (x : Self) → is_below x x };

    ghost transitive: { (x y z : Self) → is_below x y → is_below y z → is_below x z };

    /// The rank never passes the height, which alike values share.
    ghost bounded: { (x : Self) → is_element x → rank x ≤ height x };

    ghost same_height: { (x y : Self) → alike x y → height x ≡ height y };

    /// What is above has at least the rank, and where it has no more it is also below.
    ghost rank_grows: { (x y : Self) → is_element x → is_element y → alike x y → is_below x y → rank x ≤ rank y };

    ghost growth: { (x y : Self) → is_element x → is_element y → alike x y → is_below x y → rank y ≤ rank x → is_below y x };

    ghost antisymmetric: { (x y : Self) → is_element x → is_element y → alike x y → is_below x y → is_below y x → x ≡ y };
}
