//! Numbers among the words.
ghost use Rattle.std.specs.{Prelude.{◌≡◌, option_map}, Char.{is_ascii_digit}, List.{list_all}, Str.{all_ascii_digits}};
ghost use Rattle.command_words.specs.Numerals.{number_of as the_number, seed_of as the_seed, tasks_of as the_tasks};

use osek_values::limits::MAX_TASKS;

/// The most digits of a seed.
const MAX_SEED_DIGITS: usize = 20;

fn is_digit(byte: u8) -> bool
    ensures { result ≡ is_ascii_digit byte }
{
    byte.is_ascii_digit()
}

fn are_digits(bytes: &[u8]) -> bool
    ensures { result ≡ list_all is_ascii_digit bytes.now }
{
    bytes.iter().all(|byte| is_digit(*byte))
}

#[tactic(auto, using(crate::proofs::Digits::all_digits))]
fn is_number(word: &str) -> bool
    ensures { result ≡ all_ascii_digits word.now }
{
    are_digits(word.as_bytes())
}

/// The value of a word of digits.
fn number_of(word: &str) -> Option<u64>
    ensures { result ≡ the_number word.now }
{
    if !is_number(word) {
        return None;
    }
    match word.parse::<u64>() {
        Ok(number) => Some(number),
        Err(_) => None,
    }
}

/// The seed that a word says.
pub fn seed_of(word: &str) -> Option<u64>
    ensures { result ≡ the_seed word.now }
{
    if word.len() > MAX_SEED_DIGITS {
        return None;
    }
    number_of(word)
}

/// The number of tasks that a word says.
pub fn tasks_of(word: &str) -> Option<u32>
    ensures { result ≡ the_tasks word.now }
{
    match number_of(word) {
        Some(number) => {
            if number > 0 && number <= MAX_TASKS as u64 {
                Some(number as u32)
            } else {
                None
            }
        }
        None => None,
    }
}
