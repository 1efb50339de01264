//! Laws over the definitions.
ghost use Rattle.commands.specs.Laws.{SomeIsDue, OneIsDue, OneImageIsBuilt, WhatIsBuiltReplays, WhatIsBuiltIsTheKernel, WhatIsCertifiedIsChecked, WhatIsCheckedIsAKernelImage};
ghost use Rattle.commands.specs.Laws.{WhatIsRecordedIsQuiet, WhatIsRecordedIsTheKernels, WhatIsReportedNeverComes, WhatIsUpgradedReplays, WhatIsUpgradedPrintsTheSame};
ghost use Rattle.commands.specs.OneText.{OneTableIsWritten, OneTextIsShown, OneReportIsPrinted, OneLineIsGenerated};

use flow_report::laws::what_is_denied_never_comes;

/// Over files of bytes one answer at most is due to each command, and one is to each but `certify`, `check` and `watch`: what ends
/// these is known by an analysis alone.
pub fn one_answer()
    ensures some { SomeIsDue }
    ensures one { OneIsDue }
{}

/// The bytes that `build` stores are a function of its two texts.
pub fn one_image_is_built()
    ensures { OneImageIsBuilt }
{}

/// The least table of an application is written in one way, so that the number of its values is one too.
pub fn one_table_is_written()
    ensures { OneTableIsWritten }
{}

/// What `show` prints is a function of its two texts.
pub fn one_text_is_shown()
    ensures { OneTextIsShown }
{}

/// What `report` prints is a function of its two texts.
pub fn one_report_is_printed()
    ensures { OneReportIsPrinted }
{}

/// What `gen` prints is a function of its two numbers.
pub fn one_line_is_generated()
    ensures { OneLineIsGenerated }
{}

/// What `build` stores, `replay` reads and runs to the end of the events, and it prints the kernel's trace.
pub fn what_is_built_replays()
    ensures replays { WhatIsBuiltReplays }
    ensures as_the_kernel { WhatIsBuiltIsTheKernel }
{}

/// What `upgrade` stores, `replay` reads and runs as it did what was there before, and it prints the same.
pub fn what_is_upgraded_replays()
    ensures replays { WhatIsUpgradedReplays }
    ensures prints_the_same { WhatIsUpgradedPrintsTheSame }
{}

/// What `certify` stores, `check` agrees to.
pub fn what_is_certified_is_checked()
    ensures { WhatIsCertifiedIsChecked }
{}

/// What `check` agrees to runs as the kernel, whoever made it.
pub fn what_is_checked_is_a_kernel_image()
    ensures { WhatIsCheckedIsAKernelImage }
{}

/// What `record` prints of an image that `build` stores is the record of the kernel's run, and `watch` finds it quiet.
pub fn what_is_recorded_is_quiet()
    ensures as_the_kernel { WhatIsRecordedIsTheKernels }
    ensures quiet { WhatIsRecordedIsQuiet }
{}

/// What a finding that `report` prints denies never comes in a run of what `build` stores.
pub fn what_is_reported_never_comes()
    ensures { WhatIsReportedNeverComes }
{
    what_is_denied_never_comes();
}
