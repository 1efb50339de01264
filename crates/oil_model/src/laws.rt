//! Laws over the definitions.
ghost use Rattle.std.specs.Prelude.{◌≡◌, ℕ, List, Some, None, slice_get};
ghost use Rattle.oil_system.specs.declared.system.EventObject.{EventObject};
ghost use Rattle.oil_tree.specs.declared.tree.Object.{Object};
ghost use Rattle.oil_model.specs.{AutoBits.{declared, IsTaken, IsLowestFree}, Objects.{explicit}, Systems.{events}};

/// A law: AUTO chooses the lowest bit that no explicit mask and no earlier AUTO event takes, or none where each is taken;
/// an explicit mask stays. It does nothing.
pub fn auto_chooses_lowest_free_bit()
    ensures each { (objects : List Object) (i : ℕ) (e : Object) → slice_get (declared objects) i ≡ Some e
        → (x : EventObject) × (slice_get (events objects) i ≡ Some x) × (x.name ≡ e.name) }
    ensures stated { (objects : List Object) (i v : ℕ) (e : Object) (x : EventObject)
        → slice_get (declared objects) i ≡ Some e → explicit e ≡ Some v → slice_get (events objects) i ≡ Some x → x.mask.0 ≡ v }
    ensures chosen { (objects : List Object) (i : ℕ) (e : Object) (x : EventObject)
        → slice_get (declared objects) i ≡ Some e → explicit e ≡ None → slice_get (events objects) i ≡ Some x
        → IsLowestFree (IsTaken objects i) x.mask.0 }
{}
