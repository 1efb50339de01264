//! Sets of names, for look-ups among many.
ghost use Rattle.std.specs.{Prelude.{◌≡◌, ℕ, List, not, ◌||◌, false, IfOk, OnOk}, Str.{bytes_eq}};
ghost use Rattle.oil_model.specs.NameSets.{has_name};

use osek_values::Memory;
use std::alloc::Global;
use std::collections::BTreeSet;

/// A set of names. A look-up takes the logarithm of their number, whatever the names are.
#[derive(Drop)]
pub struct NameSet<'a> {
    names: BTreeSet<&'a [u8]>,
}

impl<'a> NameSet<'a> {
    /// The empty set. It takes no memory yet.
    pub fn new(alloc: Global) -> NameSet<'a>
        ensures { (n : List ℕ) → has_name result n ≡ false }
    {
        NameSet {
            names: BTreeSet::new(alloc),
        }
    }

    /// Whether the name is in the set.
    pub fn has(&self, name: &[u8]) -> bool
        ensures { result ≡ has_name self.now name.now }
    {
        self.names.contains(name)
    }

    /// Adds a name, and says whether it is new.
    pub fn add(&mut self, name: &'a [u8]) -> Result<bool, Memory>
        ensures new { IfOk result (λ new. new ≡ not (has_name self.old name.now)) }
        ensures added { OnOk result ((n : List ℕ) → has_name self.new n ≡ (bytes_eq name.now n || has_name self.old n)) }
    {
        let new = self.names.insert(name)?;
        Ok(new)
    }
}
