//! Laws over the definitions.
ghost use Rattle.image_codec.specs.Laws.{OneSpelling, SpellOrFail, SpellingIsRead, HeaderFaults, EntryFaults, BlocksFaults, ImageFaults};

/// Equal bytes mean equal images, whatever follows them; so no spelling begins another.
pub fn one_spelling()
    ensures { OneSpelling }
{}

/// Bytes spell an image or have a first fault, and never both.
pub fn one_answer()
    ensures some { SpellOrFail }
    ensures one { SpellingIsRead }
{}

/// The first fault of the header, of an entry and of all blocks is that of the first field that breaks a rule, as the
/// table of fields says, and the rule of the lowest number that the field breaks.
pub fn first_fault_by_fields()
    ensures header { HeaderFaults }
    ensures entries { EntryFaults }
    ensures blocks { BlocksFaults }
    ensures image { ImageFaults }
{}
