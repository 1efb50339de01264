//! What ISO 17356-3 guarantees, of images.
ghost use Rattle.osek_standard.specs.declared.app.App.{App};
ghost use Rattle.image_model.specs.{declared.image.Image.{Image}, ImageTrace.{AreGeneral}};
ghost use Rattle.commands.specs.Fitting.{IsKernelImage};
ghost use Rattle.command_laws.specs.GuaranteedImages.{ShowsGuaranteed, WhatIsBuiltIsGuarded, WhatIsBuiltIsGuaranteed, WhatIsCheckedIsGuaranteed};

/// Each state of a run of what `build` stores of two texts has all that is guaranteed, and is the one that its line of the trace
/// shows.
pub fn what_is_built_is_guaranteed()
    ensures states { WhatIsBuiltIsGuaranteed }
    // what the record says under a condition holds of them, since their application has each
    ensures conditions { WhatIsBuiltIsGuarded }
{}

/// And so has each state of a run of an image of which `check` says yes, whoever made it.
pub fn what_is_checked_is_guaranteed()
    ensures { WhatIsCheckedIsGuaranteed }
{}

/// An image that has the kernel's trace in each mode shows states with all that is guaranteed, and so does one whose sites are
/// general.
pub fn kernel_images_show_what_is_guaranteed()
    ensures kernel { (app : App) (i : Image) → IsKernelImage app i → ShowsGuaranteed app i }
    ensures general { (i : Image) → AreGeneral i.sites → ShowsGuaranteed i.app i }
{}
