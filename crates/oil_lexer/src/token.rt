//! Tokens, and the pieces that a text is parted into.
ghost use Rattle.std.specs.Prelude.{◌≡◌, IfOk, IsTrue};
ghost use Rattle.osek_values.specs.Names.{is_name};

use osek_values::{Memory, Name, Seq};
use std::alloc::Global;
use std::marker::Model;

/// The marks of OIL and of task code.
#[derive(Clone, Copy)]
pub enum Mark {
    /// `{`
    OpenBrace,
    /// `}`
    CloseBrace,
    /// `(`
    OpenParen,
    /// `)`
    CloseParen,
    /// `[`
    OpenBracket,
    /// `]`
    CloseBracket,
    /// `=`
    Equals,
    /// `;`
    Semicolon,
    /// `:`
    Colon,
    /// `,`
    Comma,
    /// `.`
    Period,
    /// `?`
    Question,
    /// `|`
    Bar,
    /// `+`
    Plus,
    /// `-`
    Minus,
}

/// A name as it stands in a text. Contracts see its bytes.
#[derive(Drop)]
pub struct Word<'a> {
    bytes: &'a [u8],
}

impl<'a> Model for Word<'a> {
    ghost use Rattle.std.specs.Prelude.{List, ℕ, IsTrue};
    ghost use Rattle.osek_values.specs.Names.{is_name};

    ghost Value = { List ℕ };

    ghost view = { λ w. w.bytes.now };

    ghost invariant = { λ w. IsTrue (is_name w.bytes.now) };
}

impl<'a> Word<'a> {
    /// The name of these bytes.
    pub(crate) fn new(bytes: &'a [u8]) -> Word<'a>
        requires { IsTrue (is_name bytes.now) }
        ensures { result ≡ bytes.now }
    {
        Word { bytes }
    }

    /// The bytes of the name.
    pub fn as_bytes(&self) -> &'a [u8]
        ensures bytes { result.now ≡ self.now }
        ensures name { IsTrue (is_name self.now) }
    {
        self.bytes
    }

    /// The name in memory of its own.
    pub fn name(&self, alloc: Global) -> Result<Name, Memory>
        ensures { IfOk result (λ copy. copy ≡ self.now) }
    {
        let bytes = Vec::from_slice(alloc, self.bytes)?;
        Ok(Name::new(bytes))
    }
}

/// The bytes between the quotation marks of a text, as they stand there.
#[derive(Drop)]
pub struct Quoted<'a> {
    bytes: &'a [u8],
}

impl<'a> Model for Quoted<'a> {
    ghost use Rattle.std.specs.Prelude.{List, ℕ};

    ghost Value = { List ℕ };

    ghost view = { λ q. q.bytes.now };
}

impl<'a> Quoted<'a> {
    pub(crate) fn new(bytes: &'a [u8]) -> Quoted<'a>
        ensures { result ≡ bytes.now }
    {
        Quoted { bytes }
    }

    /// The bytes between the quotation marks.
    pub fn as_bytes(&self) -> &'a [u8]
        ensures { result.now ≡ self.now }
    {
        self.bytes
    }

    /// The bytes in memory of their own.
    pub fn seq(&self, alloc: Global) -> Result<Seq<u8>, Memory>
        ensures { IfOk result (λ copy. copy ≡ self.now) }
    {
        let bytes = Vec::from_slice(alloc, self.bytes)?;
        Ok(Seq::of(bytes))
    }
}

/// What a token is, and its value: `16` and `0x10` are the same.
#[derive(Drop)]
pub enum TokenKind<'a> {
    /// A name, which may be a word of the grammar.
    Name(Word<'a>),
    Number(u64),
    /// The bytes between the quotation marks of a text.
    Text(Quoted<'a>),
    Mark(Mark),
}

/// A token.
#[derive(Drop)]
pub struct Token<'a> {
    pub kind: TokenKind<'a>,
    /// The line of its first byte, from 1 on.
    pub line: u32,
}

/// What stands at the front of a text: a blank or a comment, or a token.
#[derive(Drop)]
pub enum Piece<'a> {
    Gap,
    Whole(TokenKind<'a>),
}
