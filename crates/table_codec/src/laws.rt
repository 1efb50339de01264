//! Laws over the definitions.
ghost use Rattle.table_codec.specs.Laws.{OneSpelling, ShortIsSpellable, OneAnswer, OneFault, SomeAnswer};

/// Equal bytes mean equal tables, whatever follows them; so no spelling begins another.
pub fn one_spelling()
    ensures { OneSpelling }
{}

/// The bytes tell a table where they are fewer than a count can say.
pub fn short_is_spellable()
    ensures { ShortIsSpellable }
{}

/// Bytes that spell a table have no fault.
pub fn one_answer()
    ensures { OneAnswer }
{}

/// Bytes have one first fault at most.
pub fn one_fault()
    ensures { OneFault }
{}

/// Bytes spell a table or have a first fault. Each application of the program has masks of 64 bits.
pub fn some_answer()
    ensures { SomeAnswer }
{}
