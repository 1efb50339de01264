//! Laws over the definitions, each on a function that does nothing.
ghost use Rattle.std.specs.Prelude.{◌≡◌, ◌<◌, List, length, All};
ghost use Rattle.osek_values.specs.declared.{event.Event.{Event}, numbers.ModeNo.{ModeNo}};
ghost use Rattle.osek_standard.specs.{declared.app.App.{App}, Kernel.{run}};
ghost use Rattle.image_model.specs.{declared.image.Image.{Image}, ImageTrace.{image_run}};
ghost use Rattle.abstract_state.specs.Tables.{Sets, Inductive};
ghost use Rattle.dictated_forms.specs.Forms.{Fits};
ghost use Rattle.flow_report.specs.{declared.finding.Finding.{Finding}, Findings.{Denies, Holds, IsOf}, FindingLines.{finding_line}};

/// What a finding denies never comes in a run of the kernel, nor in one of an image that fits.
pub fn what_is_denied_never_comes()
    ensures kernel { (app : App) (table : Sets) (f : Finding) (mode : ModeNo) (es : List Event) → Inductive app table → Holds app table f → mode.0 < length app.modes → All (λ x. Denies app f x → ⊥) (run app mode es) }
    ensures image { (i : Image) (table : Sets) (f : Finding) (mode : ModeNo) (es : List Event) → Inductive i.app table → Fits table i → Holds i.app table f → mode.0 < length i.app.modes → All (λ x. Denies i.app f x → ⊥) (image_run i mode es).steps }
{}

/// A line of a finding tells the finding.
pub fn a_line_tells_one_finding()
    ensures { (app : App) (f g : Finding) → IsOf app f → IsOf app g → finding_line app f ≡ finding_line app g → f ≡ g }
{}
