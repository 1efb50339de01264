//! The words that a program was given.
use osek_values::Memory;
use std::alloc::Global;
use std::env::{Env, FillError};
use std::{env, io};

/// The words of the command line, with nothing in place of the first: that is the program's own name, which isn't looked
/// at and so may be any bytes.
#[derive(Drop)]
struct NamelessWords<R>(R);

impl<R: Env> Env for NamelessWords<R> {
    fn arg(&self, i: usize, buf: &mut [u8]) -> Result<usize, FillError> {
        match i {
            0 => Ok(0),
            _ => self.0.arg(i, buf),
        }
    }

    fn var(&self, name: &str, buf: &mut [u8]) -> Result<usize, FillError> {
        self.0.var(name, buf)
    }

    fn var_at(&self, i: usize, buf: &mut [u8]) -> Result<usize, FillError> {
        self.0.var_at(i, buf)
    }
}

fn read_words<R: Env + Drop>(alloc: Global, env: R) -> io::Result<Vec<String>> {
    let mut words = Vec::new(alloc);
    for word in env::args(&(NamelessWords(env), alloc))? {
        words.push(word)?;
    }
    Ok(words)
}

/// The words of the command line, the first of them empty; none where some other word isn't UTF-8, so that they are of no
/// stated form.
pub fn words_given<R: Env + Drop>(alloc: Global, env: R) -> Result<Vec<String>, Memory> {
    match read_words(alloc, env) {
        Ok(words) => Ok(words),
        Err(error) if error.kind() == io::ErrorKind::InvalidData => Ok(Vec::new(alloc)),
        Err(_) => Err(Memory),
    }
}
