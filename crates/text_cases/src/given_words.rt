//! Words that are given, and words that clap reads.
use command_words::{has_form, parse_words, words_given};
use std::alloc::{AllocError, Global};
use std::env::{Env, FillError};
use std::test::Fail;

fn list_of(alloc: Global, words: &[&str]) -> Result<Vec<String>, AllocError> {
    let mut list = Vec::new(alloc);
    for word in words {
        list.push(String::from_str(alloc, word)?)?;
    }
    Ok(list)
}

#[test]
fn the_words_behind_a_verb_are_read(rt: HostRuntime) -> Result<(), Fail> {
    let words = list_of(
        rt.alloc(),
        &["osekfit", "trace", "a.oil", "a.c", "build", "e"],
    )?;
    if has_form(&words) {
        let read = parse_words(rt.alloc(), &words)?;
        assert!(rt; read.as_slice() == ["a.oil", "a.c", "build", "e"].as_slice());
        return Ok(());
    }
    assert!(rt; false);
    Ok(())
}

/// A command line of three words, of which the last is given as bytes.
#[derive(Drop)]
struct ThreeWords(&'static [u8]);

impl Env for ThreeWords {
    fn arg(&self, i: usize, buf: &mut [u8]) -> Result<usize, FillError> {
        let word: &[u8] = match i {
            0 => b"\xff",
            1 => b"info",
            2 => self.0,
            _ => return Err(FillError::NotPresent),
        };
        if word.len() > buf.len() {
            return Err(FillError::TooLong);
        }
        buf[..word.len()].copy_from_slice(word);
        Ok(word.len())
    }

    fn var(&self, _name: &str, _buf: &mut [u8]) -> Result<usize, FillError> {
        Err(FillError::NotPresent)
    }

    fn var_at(&self, _i: usize, _buf: &mut [u8]) -> Result<usize, FillError> {
        Err(FillError::NotPresent)
    }
}

#[test]
fn words_are_given_whatever_the_program_is_called(rt: HostRuntime) -> Result<(), Fail> {
    let words = words_given(rt.alloc(), ThreeWords(b"an.image"))?;
    assert!(rt; has_form(&words));
    Ok(())
}

#[test]
fn a_word_that_is_not_utf_8_is_of_no_form(rt: HostRuntime) -> Result<(), Fail> {
    let words = words_given(rt.alloc(), ThreeWords(b"\xff"))?;
    assert!(rt; !has_form(&words));
    Ok(())
}
