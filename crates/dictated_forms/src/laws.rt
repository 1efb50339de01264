//! Laws over the definitions, each on a function that does nothing.
ghost use Rattle.std.specs.Prelude.{◌≡◌, ℕ, ◌<◌, List, length, Some};
ghost use Rattle.osek_values.specs.declared.{event.Event.{Event}, numbers.ModeNo.{ModeNo}};
ghost use Rattle.osek_standard.specs.{declared.{app.App.{App}, state.State.{State}}, Kernel.{step}};
ghost use Rattle.image_model.specs.declared.{site.{Form.{Form}, Known.{Known}}, image.Image.{Image}};
ghost use Rattle.image_model.specs.declared.image.Version.TheVariants as version;
ghost use Rattle.image_model.specs.{ImageStep.{image_step}, Laws.{IsKernelsRun}};
ghost use Rattle.abstract_state.specs.Tables.{Sets, In, Inductive};
ghost use Rattle.dictated_forms.specs.Forms.{FormOf, KnownOf, HasDictatedForms, HasDictatedStatuses, KnowsAtMost, Fits};

/// A table dictates one form at most, and says one thing at most of the status.
pub fn one_form_is_dictated()
    ensures known { (app : App) (table : Sets) (b : ℕ) (x y : Known) → KnownOf app table b x → KnownOf app table b y → x ≡ y }
    ensures form { (app : App) (table : Sets) (b : ℕ) (f g : Form) → FormOf app table b f → FormOf app table b g → f ≡ g }
{}

/// An image that fits a table does the kernel's steps, and doesn't trap, from each state in the table; and where the table is
/// inductive, its trace is the kernel's in every mode over every list of events.
pub fn fitting_images_are_the_kernel()
    ensures step { (i : Image) (table : Sets) (s : State) (e : Event) → Fits table i → In i.app table s → image_step i s e ≡ Some (step i.app s e) }
    ensures run { (i : Image) (table : Sets) (mode : ModeNo) (es : List Event) → Inductive i.app table → Fits table i → mode.0 < length i.app.modes → IsKernelsRun i mode es }
{}

/// So does an image whose sites have the forms that a table dictates, and know of their statuses what it says or nothing: it
/// fits.
pub fn dictated_forms_are_the_kernel()
    ensures fit { (i : Image) (table : Sets) → HasDictatedForms table i → KnowsAtMost table i → Fits table i }
    ensures step { (i : Image) (table : Sets) (s : State) (e : Event) → HasDictatedForms table i → KnowsAtMost table i → In i.app table s → image_step i s e ≡ Some (step i.app s e) }
    ensures run { (i : Image) (table : Sets) (mode : ModeNo) (es : List Event) → Inductive i.app table → HasDictatedForms table i → KnowsAtMost table i → mode.0 < length i.app.modes → IsKernelsRun i mode es }
{}

/// An image that knows of its statuses what a table says, or that is of version 1, knows no more than that.
pub fn dictated_statuses_are_no_more()
    ensures dictated { (i : Image) (table : Sets) → HasDictatedStatuses table i → KnowsAtMost table i }
    ensures version_1 { (i : Image) (table : Sets) → i.version ≡ version.One → KnowsAtMost table i }
{}

/// No block is without a form: that a table dictated none of them would be a contradiction.
pub fn no_block_is_without_a_form()
    ensures form { (app : App) (table : Sets) (b : ℕ) → ((f : Form) → FormOf app table b f → ⊥) → ⊥ }
    ensures known { (app : App) (table : Sets) (b : ℕ) → ((x : Known) → KnownOf app table b x → ⊥) → ⊥ }
{}
