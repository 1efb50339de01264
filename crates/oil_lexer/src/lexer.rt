//! The tokens of a text.
ghost use Rattle.std.specs.Prelude.{◌≡◌, ◌≤◌, ℕ, List, length, MatchResult, Result};
ghost use Rattle.osek_values.specs.declared.{refused.LineFault.{LineFault}, refusal.LexRule.{LexRule}};
ghost use Rattle.oil_lexer.specs.{declared.token.Token.{Token}, Ahead.{AreAhead}, Answers.{IsAnswer}, Text.{line_ends, FaultsAt}};

use crate::cursor::Tokens;
use crate::error::LexFault;
use crate::piece::front;
use osek_values::LexRule;
use osek_values::limits::MAX_FILE;

/// How many lines end in the bytes.
pub fn line_ends(bytes: &[u8]) -> u32
    requires { length bytes.now ≤ MAX_FILE }
    ensures value { result ≡ line_ends bytes.now }
    ensures few { result ≤ length bytes.now }
{
    bytes.iter().filter(|byte| **byte == b'\n').count() as u32
}

// The first fault of a text that isn't too long, if it has one.
fn judge(bytes: &[u8]) -> Result<(), LexFault>
    requires { length bytes.now ≤ MAX_FILE }
    ensures { MatchResult result
        (λ _. (tokens : List Token) × AreAhead 1 bytes.now tokens)
        (λ fault. FaultsAt bytes.now fault) }
{
    let mut line = 1u32;
    let mut rest = bytes;
    while !rest.is_empty() {
        match front(rest) {
            Ok((_, len)) => {
                let (prefix, after) = rest.split_at(len);
                line += line_ends(prefix);
                rest = after;
            }
            Err(rule) => return Err(LexFault { line, rule }),
        }
    }
    Ok(())
}

fn lex(bytes: &[u8]) -> Result<Tokens<'_>, LexFault>
    ensures { IsAnswer result bytes.now }
{
    if bytes.len() > MAX_FILE {
        return Err(LexFault {
            line: 0,
            rule: LexRule::L6,
        });
    }
    judge(bytes)?;
    Ok(Tokens::of(bytes))
}

/// The tokens of an OIL or task code text (ISO 17356-6, lexical rules; which marks there are, and the limits, are this
/// project's profile), or the first fault of the text. It takes no memory: the tokens are read from the text when they
/// are asked for.
pub fn tokens(bytes: &[u8]) -> Result<Tokens<'_>, LexFault>
    // What is answered is right,
    ensures right { IsAnswer result bytes.now }

    // and what is right is answered.
    ensures exact { (expected : Result (List Token) (LineFault LexRule)) → IsAnswer expected bytes.now → result ≡ expected }
{
    lex(bytes)
}

/// A law: each text has tokens or a first fault, and no other. It does nothing.
pub fn one_answer()
    ensures some { (text : List ℕ) → (answer : Result (List Token) (LineFault LexRule)) × IsAnswer answer text }
    ensures one { (text : List ℕ) (a b : Result (List Token) (LineFault LexRule)) → IsAnswer a text → IsAnswer b text → a ≡ b }
{}
