//! Laws over the verdicts, each on a function that does nothing.
ghost use Rattle.std.specs.Prelude.{◌≡◌};
ghost use Rattle.image_model.specs.declared.image.Image.{Image};
ghost use Rattle.abstract_state.specs.Tables.{Sets, Inductive};
ghost use Rattle.dictated_forms.specs.Forms.{HasDictatedForms, HasDictatedStatuses};
ghost use Rattle.flow_check.specs.{declared.verdict.Verdict.{Verdict}, Verdicts.{IsVerdict}};
ghost use Rattle.flow_check.specs.declared.verdict.Verdict.TheVariants as verdict;

/// At most one thing is said of an image and a table: so yes is said exactly where the table is inductive and the image fits.
pub fn one_verdict()
    ensures { (i : Image) (table : Sets) (x y : Verdict) → IsVerdict i table x → IsVerdict i table y → x ≡ y }
{}

/// An image with the forms that an inductive table dictates, and that knows of its statuses what the table says, as tailoring
/// makes it, is told yes.
pub fn what_is_tailored_fits()
    ensures { (i : Image) (table : Sets) → Inductive i.app table → HasDictatedForms table i → HasDictatedStatuses table i → IsVerdict i table verdict.Yes }
{}
