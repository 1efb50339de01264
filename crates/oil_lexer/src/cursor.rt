//! The tokens of a text that are ahead.
ghost use Rattle.std.specs.Prelude.{◌≡◌, ◌≤◌, ◌+◌, [], ◌∷◌, length, MatchOption, List};
ghost use Rattle.osek_values.specs.declared.limits.TheConstants.{MAX_FILE};
ghost use Rattle.oil_lexer.specs.{declared.token.Token.{Token}, Ahead.{AreAhead, AreOnly, Ahead, Ahead-prop}};

use crate::lexer::line_ends;
use crate::piece::front;
use crate::token::{Piece, Token};
use std::marker::Model;

/// The tokens of a text that are still ahead, which contracts see as the list of them. Each is read from the text when
/// it is asked for, and none is kept.
#[derive(Drop)]
pub struct Tokens<'a> {
    rest: &'a [u8],
    line: u32,
    ghost ahead: { Ahead line rest.now } by { Ahead-prop line rest.now },
}

impl<'a> Model for Tokens<'a> {
    ghost use Rattle.std.specs.Prelude.{List, ◌≤◌, ◌+◌, length};
    ghost use Rattle.osek_values.specs.declared.limits.TheConstants.{MAX_FILE};
    ghost use Rattle.oil_lexer.specs.declared.token.Token.{Token};

    ghost Value = { List Token };

    ghost view = { λ s. s.ahead.0 };

    ghost invariant = { λ s. (1 ≤ s.line) × (s.line + length s.rest.now ≤ MAX_FILE + 1) };
}

impl<'a> Tokens<'a> {
    // The tokens of a text that begins on a line.
    fn from_line(rest: &'a [u8], line: u32) -> Tokens<'a>
        requires first { 1 ≤ line }
        requires within { line + length rest.now ≤ MAX_FILE + 1 }
        requires ahead { Ahead line rest.now }
        ensures { AreOnly line rest.now result }
    {
        Tokens { rest, line }
    }

    // All the tokens of a text.
    pub(crate) fn of(text: &'a [u8]) -> Tokens<'a>
        requires within { length text.now ≤ MAX_FILE }
        requires ahead { (tokens : List Token) × AreAhead 1 text.now tokens }
        ensures { AreAhead 1 text.now result }
    {
        Tokens::from_line(text, 1)
    }

    /// The same tokens once more. It takes no memory.
    pub fn copy(&self) -> Tokens<'a>
        ensures { result ≡ self.now }
    {
        Tokens::from_line(self.rest, self.line)
    }

    /// The first token, and those behind it. It takes no memory.
    pub fn first(&self) -> Option<(Token<'a>, Tokens<'a>)>
        ensures { MatchOption result (self.now ≡ []) (λ x. self.now ≡ x.0 ∷ x.1) }
    {
        let mut line = self.line;
        let mut rest = self.rest;
        while !rest.is_empty() {
            let Ok((piece, len)) = front(rest) else {
                unreachable!();
            };
            let (prefix, after) = rest.split_at(len);
            let next = line + line_ends(prefix);
            if let Piece::Whole(kind) = piece {
                return Some((Token { kind, line }, Tokens::from_line(after, next)));
            }
            line = next;
            rest = after;
        }
        None
    }
}
