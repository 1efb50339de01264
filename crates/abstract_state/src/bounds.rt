//! How many values the sets of an entry can have, each law on a function that does nothing.
ghost use Rattle.std.specs.Prelude.{◌≡◌, ◌<◌, ◌^◌, ℕ};
ghost use Rattle.osek_standard.specs.{declared.{app.App.{App}, point.Point.{Point}}, Counts.{height}};
ghost use Rattle.abstract_state.specs.declared.{value.{Domain.{Domain}, PartValue.{PartValue}}, table.PlainEntry.{PlainEntry}};
ghost use Rattle.abstract_state.specs.Components.{component_at, component_count, IsAllowed};
ghost use Rattle.abstract_state.specs.Domains.{IsWithin, IsCounted, domain_of, domains, domains_of, entry_height, HasMasks};

/// What a component can be in a well-formed state lies in its domain.
pub fn allowed_values_lie_in_their_domains()
    ensures { (app : App) (p : Point) (c : ℕ) (v : PartValue) → c < component_count app → IsAllowed app p c v → IsWithin (domain_of app (component_at app c)) v }
{}

/// A domain has as many values as its size says.
pub fn the_size_counts_a_domains_values()
    ensures { (d : Domain) → IsCounted d }
{}

/// An entry with the domains of an application has its height, which a count of 64 bits holds. (Masks are of 64 bits, as
/// their type has it.)
pub fn an_entrys_height_is_the_applications()
    ensures height { (app : App) → HasMasks app → (entry : PlainEntry) → domains entry ≡ domains_of app → entry_height entry ≡ height app }
    ensures few { (app : App) → HasMasks app → height app < 2 ^ 64 }
{}
