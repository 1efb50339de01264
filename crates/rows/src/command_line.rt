//! Words of a command line.
use crate::wrong::{Wrong, needed};
use osek_values::Memory;
use std::alloc::Global;

/// The most words of a command line.
const MAX_WORDS: usize = 16;

/// What may stand behind a word in quotation marks: nothing, or a blank and the next word.
fn behind_quoted(rest: &str) -> Option<&str> {
    if rest.is_empty() {
        return Some(rest);
    }
    rest.strip_prefix(' ')
}

/// The first word, and what stands behind it. A word in quotation marks may have blanks, or be empty.
fn word(text: &str) -> Option<(&str, &str)> {
    match text.strip_prefix('"') {
        Some(quoted) => {
            let (word, rest) = quoted.split_once('"')?;
            Some((word, behind_quoted(rest)?))
        }
        None => Some(text.split_once(' ').unwrap_or((text, ""))),
    }
}

/// The words of a line, between blanks.
pub fn words<'a>(alloc: Global, text: &'a str, line: u64) -> Result<Vec<&'a str>, Wrong> {
    let mut words = Vec::new(alloc);
    let mut rest = text;
    for _ in 0..MAX_WORDS {
        if rest.is_empty() {
            break;
        }
        let (word, behind) = needed(word(rest), line)?;
        words.push(word)?;
        rest = behind;
    }
    if rest.is_empty() {
        Ok(words)
    } else {
        Err(Wrong::Line(line))
    }
}

/// The program's name, and these words behind it.
pub fn command_line(alloc: Global, words: &[&str]) -> Result<Vec<String>, Memory> {
    let mut line = Vec::new(alloc);
    line.push(String::from_str(alloc, "osekfit")?)?;
    for word in words {
        line.push(String::from_str(alloc, word)?)?;
    }
    Ok(line)
}
