//! Entries of tables, which have names.
ghost use Rattle.std.specs.{Prelude.{◌≡◌, ◌&&◌, not, List, ℕ, map, nat_lt, nat_le}, List.{list_any}, Str.{bytes_eq}};
ghost use Rattle.osek_values.specs.Names.{is_name as is_a_name};

use crate::fault::{ImageRule, ReadError};
use crate::reader::{Reader, fault};
use osek_standard::{Alarm, Counter, Isr, Resource, Task};
use osek_values::limits::MAX_NAME;
use osek_values::{Name, is_name};
use std::alloc::Global;

/// An entry of a table.
pub(crate) trait Named {
    ghost name_of: { Self → List ℕ };

    /// Its name, which no other entry of the table has.
    fn name(&self) -> &Name
        ensures { result.now ≡ name_of self.now };
}

impl Named for Task {
    ghost name_of = { λ x. x.name };

    fn name(&self) -> &Name {
        &self.name
    }
}

impl Named for Isr {
    ghost name_of = { λ x. x.name };

    fn name(&self) -> &Name {
        &self.name
    }
}

impl Named for Counter {
    ghost name_of = { λ x. x.name };

    fn name(&self) -> &Name {
        &self.name
    }
}

impl Named for Alarm {
    ghost name_of = { λ x. x.name };

    fn name(&self) -> &Name {
        &self.name
    }
}

impl Named for Resource {
    ghost name_of = { λ x. x.name };

    fn name(&self) -> &Name {
        &self.name
    }
}

impl Named for Name {
    ghost name_of = { λ x. x };

    fn name(&self) -> &Name {
        self
    }
}

fn is_named<T: Named>(entry: &T, name: &[u8]) -> bool
    ensures { result ≡ bytes_eq (T.name_of entry.now) name.now }
{
    entry.name().as_bytes() == name
}

/// Whether some entry has the name.
fn has_name<T: Named>(entries: &[T], name: &[u8]) -> bool
    ensures { result ≡ list_any (λ x. bytes_eq (T.name_of x) name.now) entries.now }
{
    entries.iter().any(|entry| is_named(entry, name))
}

/// Whether the name is one of the entries' names.
#[tactic(auto, using(osek_values::proofs::Lists::any_of_map))]
fn is_taken<T: Named>(entries: &[T], name: &[u8]) -> bool
    ensures { result ≡ list_any (λ m. bytes_eq m name.now) (map T.name_of entries.now) }
{
    has_name(entries, name)
}

/// Whether the bytes form a name that none of the entries has.
fn is_fresh<T: Named>(entries: &[T], text: &[u8]) -> bool
    ensures { result ≡ (is_a_name text.now && not (list_any (λ m. bytes_eq m text.now) (map T.name_of entries.now))) }
{
    let taken = is_taken(entries, text);
    is_name(text) && !taken
}

impl<'a> Reader<'a> {
    ghost use Rattle.image_fields.specs.{Reading.{Gives, tested_byte_at, name_at}, declared.fault.ImageRule.TheVariants.{I4}};

    /// The length byte of a name.
    #[tactic(auto, unfolding(crate::specs::Reading::tested_byte_at))]
    fn name_len(&mut self) -> Result<u8, ReadError>
        ensures { Gives (λ x. x) result self.new (tested_byte_at (λ n. nat_lt 0 n && nat_le n MAX_NAME) I4 self.old) }
    {
        let left = self.left();
        let len = self.byte()?;
        if len == 0 || len as usize > MAX_NAME {
            return Err(fault(ImageRule::I4, left));
        }
        Ok(len)
    }

    /// A name that none of the earlier entries has.
    #[tactic(auto, unfolding(crate::specs::Reading::name_at))]
    pub(crate) fn name<T: Named>(&mut self, alloc: Global, earlier: &[T]) -> Result<Name, ReadError>
        ensures { Gives (λ x. x) result self.new (name_at (map T.name_of earlier.now) self.old) }
    {
        let left = self.left();
        let len = self.name_len()?;
        let text = self.text(len as usize, left)?;
        if !is_fresh(earlier, text) {
            return Err(fault(ImageRule::I4, left));
        }
        Ok(Name::new(Vec::from_slice(alloc, text)?))
    }
}
