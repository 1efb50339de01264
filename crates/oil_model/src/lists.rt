//! The walk over the lists of attributes of a tree.
ghost use Rattle.std.specs.{Prelude.{◌≡◌, List, ℕ}, List.{flat_map}};
ghost use Rattle.oil_tree.specs.declared.tree.{Attr.{Attr}, Object.{Object}};
ghost use Rattle.oil_model.specs.{declared.table.Scope.{Scope}, Lists.{found_below, found_of, found_in}, Lines.{least}};

use crate::lines::sooner;
use crate::table::{Scope, inner_scope, scope_of};
use oil_tree::{Attr, Object};

/// A rule that judges each list of attributes by its scope, over all objects.
pub trait ListRule {
    /// That the rule knows what it needs to know of the objects.
    ghost Knows: { Self → List Object → Type 0 };

    /// The lines on which a list violates the rule.
    ghost found: { List Object → Scope → ℕ → List Attr → List ℕ };

    /// The least of these lines.
    fn least_found(
        &self,
        objects: &[Object],
        scope: Scope,
        line: u32,
        attrs: &[Attr],
    ) -> Option<u32>
        requires { Knows self.now objects.now }
        ensures { result ≡ least (found objects.now scope line attrs.now) };
}

fn least_within<R: ListRule>(rule: &R, objects: &[Object], scope: Scope, attr: &Attr) -> Option<u32>
    requires { R.Knows rule.now objects.now }
    ensures { result ≡ least (found_below (R.found objects.now) scope attr.now) }
{
    match inner_scope(scope, attr.name.as_bytes(), &attr.value) {
        Some(inner) => rule.least_found(objects, inner, attr.line, attr.attrs.as_slice()),
        None => None,
    }
}

fn least_below<R: ListRule>(
    rule: &R,
    objects: &[Object],
    scope: Scope,
    attrs: &[Attr],
) -> Option<u32>
    requires { R.Knows rule.now objects.now }
    ensures { result ≡ least (flat_map (found_below (R.found objects.now) scope) attrs.now) }
{
    let mut best = None;
    for attr in attrs {
        best = sooner(best, least_within(rule, objects, scope, attr));
    }
    best
}

#[tactic(auto, using(crate::proofs::Leasts::least_append))]
fn least_of<R: ListRule>(rule: &R, objects: &[Object], object: &Object) -> Option<u32>
    requires { R.Knows rule.now objects.now }
    ensures { result ≡ least (found_of (R.found objects.now) object.now) }
{
    match scope_of(object.kind.as_bytes()) {
        Some(scope) => {
            let attrs = object.attrs.as_slice();
            let own = rule.least_found(objects, scope, object.line, attrs);
            sooner(own, least_below(rule, objects, scope, attrs))
        }
        None => None,
    }
}

/// The least line on which any list violates the rule.
pub fn least_in<R: ListRule>(rule: &R, objects: &[Object]) -> Option<u32>
    requires { R.Knows rule.now objects.now }
    ensures { result ≡ least (found_in (R.found objects.now) objects.now) }
{
    let mut best = None;
    for object in objects {
        best = sooner(best, least_of(rule, objects, object));
    }
    best
}
