//! Answers that an analysis alone finds.
ghost use Rattle.command_laws.specs.Answers.{SomeIsDueToCheck, SomeVerdictIsRight};

/// That nothing were right of an image and a table would be a contradiction, and so that over files of bytes no answer were due
/// to a `check`. One at most is: `one_answer` of `commands`.
pub fn no_check_is_without_an_answer()
    ensures verdict { SomeVerdictIsRight }
    ensures due { SomeIsDueToCheck }
{}
