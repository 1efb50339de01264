//! The values that an attribute may have.
ghost use Rattle.std.specs.Prelude.{◌≡◌};
ghost use Rattle.oil_tree.specs.declared.tree.{Value.TheVariants.{Word, Numeric}, Sign.TheVariants.{Bare}};
ghost use Rattle.oil_model.specs.Table.{allows};

use crate::names::same;
use oil_tree::{Sign, Value};

/// A set of values.
#[derive(Clone, Copy)]
pub enum Domain {
    /// TRUE, FALSE.
    Truth,
    /// STANDARD, EXTENDED.
    Status,
    /// NON, FULL.
    Schedule,
    /// ACTIVATETASK, SETEVENT, ALARMCALLBACK.
    Action,
    /// STANDARD, LINKED, INTERNAL.
    Property,
    /// A number from the first to the second.
    Number(u64, u64),
    /// A number, or AUTO.
    EventMask,
    TaskName,
    EventName,
    ResourceName,
    CounterName,
    ModeName,
}

fn allows_word(domain: Domain, word: &[u8]) -> bool
    ensures { result ≡ allows domain (Word word.now) }
{
    match domain {
        Domain::Truth => same(word, b"TRUE") || same(word, b"FALSE"),
        Domain::Status => same(word, b"STANDARD") || same(word, b"EXTENDED"),
        Domain::Schedule => same(word, b"NON") || same(word, b"FULL"),
        Domain::Action => {
            same(word, b"ACTIVATETASK") || same(word, b"SETEVENT") || same(word, b"ALARMCALLBACK")
        }
        Domain::Property => {
            same(word, b"STANDARD") || same(word, b"LINKED") || same(word, b"INTERNAL")
        }
        Domain::Number(_, _) => false,
        Domain::EventMask => same(word, b"AUTO"),
        Domain::TaskName => true,
        Domain::EventName => true,
        Domain::ResourceName => true,
        Domain::CounterName => true,
        Domain::ModeName => true,
    }
}

fn allows_number(domain: Domain, number: u64) -> bool
    ensures { result ≡ allows domain (Numeric Bare number) }
{
    match domain {
        Domain::Number(low, high) => low <= number && number <= high,
        Domain::EventMask => true,
        _ => false,
    }
}

/// Whether a value is in the domain. A number with a sign is in none.
pub fn allows(domain: Domain, value: &Value) -> bool
    ensures { result ≡ allows domain value.now }
{
    match value {
        Value::Word(word) => allows_word(domain, word.as_bytes()),
        Value::Quoted(_) => false,
        Value::Numeric(sign, number) => match sign {
            Sign::Bare => allows_number(domain, *number),
            Sign::Plus | Sign::Minus => false,
        },
    }
}
