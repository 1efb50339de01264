//! The words of the grammar.
ghost use Rattle.std.specs.Prelude.{◌≡◌};
ghost use Rattle.oil_tree.specs.Words.{word_of};

/// What a name is to the grammar of a file.
#[derive(Clone, Copy)]
pub enum Word {
    Version,
    Implementation,
    Cpu,
    Other,
}

/// The word that a name is. Only where the grammar wants one is it more than a name.
pub fn word_of(name: &[u8]) -> Word
    ensures { result ≡ word_of name.now }
{
    if name == b"CPU".as_slice() {
        Word::Cpu
    } else if name == b"OIL_VERSION".as_slice() {
        Word::Version
    } else if name == b"IMPLEMENTATION".as_slice() {
        Word::Implementation
    } else {
        Word::Other
    }
}
