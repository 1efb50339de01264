//! What stands in a list of attributes. Where a name stands several times, the first counts.
ghost use Rattle.std.specs.Prelude.{◌≡◌};
ghost use Rattle.oil_model.specs.LookUp.{is_named, has, number_or, number, word_of, word, says, inner, line};

use oil_tree::{Attr, Value};

/// Whether the attribute has the name.
pub fn is_named(name: &[u8], attr: &Attr) -> bool
    ensures { result ≡ is_named name.now attr.now }
{
    attr.name.as_bytes() == name
}

/// Whether an attribute of the name is there.
pub fn has(name: &[u8], attrs: &[Attr]) -> bool
    ensures { result ≡ has name.now attrs.now }
{
    for attr in attrs {
        if is_named(name, attr) {
            return true;
        }
    }
    false
}

fn number_or(default: u64, value: &Value) -> u64
    ensures { result ≡ number_or default value.now }
{
    match value {
        Value::Numeric(_, number) => *number,
        _ => default,
    }
}

/// The number at a name, or the default where none is there.
pub fn number(name: &[u8], attrs: &[Attr], default: u64) -> u64
    ensures { result ≡ number name.now attrs.now default }
{
    for attr in attrs {
        if is_named(name, attr) {
            return number_or(default, &attr.value);
        }
    }
    default
}

/// The bytes of a value that is a name or a word, else none.
pub fn word_of(value: &Value) -> &[u8]
    ensures { result.now ≡ word_of value.now }
{
    match value {
        Value::Word(word) => word.as_bytes(),
        _ => b"",
    }
}

/// The word at a name, or no bytes where none is there.
pub fn word<'a>(name: &[u8], attrs: &'a [Attr]) -> &'a [u8]
    ensures { result.now ≡ word name.now attrs.now }
{
    for attr in attrs {
        if is_named(name, attr) {
            return word_of(&attr.value);
        }
    }
    b""
}

/// Whether the name is there with this word.
pub fn says(name: &[u8], wanted: &[u8], attrs: &[Attr]) -> bool
    ensures { result ≡ says name.now wanted.now attrs.now }
{
    word(name, attrs) == wanted
}

/// The attributes in the attribute of a name; none where it isn't there.
pub fn inner<'a>(name: &[u8], attrs: &'a [Attr]) -> &'a [Attr]
    ensures { result.now ≡ inner name.now attrs.now }
{
    for attr in attrs {
        if is_named(name, attr) {
            return attr.attrs.as_slice();
        }
    }
    &[]
}

/// The line of the attribute of a name, or the default where it isn't there.
pub fn line(name: &[u8], attrs: &[Attr], default: u32) -> u32
    ensures { result ≡ line name.now attrs.now default }
{
    for attr in attrs {
        if is_named(name, attr) {
            return attr.line;
        }
    }
    default
}
