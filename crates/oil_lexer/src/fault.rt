//! Faults of grammar, and where reading stops.
ghost use Rattle.std.specs.Prelude.{◌≡◌};
ghost use Rattle.oil_lexer.specs.{Tokens.{last_line}, Scan.{fault_of}};
ghost use Rattle.osek_values.specs.declared.refused.Refused.TheVariants.{Fault};

use crate::cursor::Tokens;
use osek_values::{LineFault, Refused, SyntaxRule};

/// A fault of grammar, and its line.
pub type SyntaxFault = LineFault<SyntaxRule>;

/// Where reading stops.
#[derive(Clone, Copy)]
pub enum Stop {
    /// At a token that isn't allowed, with its line.
    NotAllowed(u32),
    /// At an open brace that is nested too deeply, with its line.
    TooDeep(u32),
    /// At the end of the tokens.
    Ends,
}

/// Why a phrase isn't read: reading stops there, or memory ran out.
pub type PhraseError = Refused<Stop>;

impl From<Stop> for Refused<Stop> {
    ghost from_gives = { λ stop e. e ≡ Fault stop };

    fn from(stop: Stop) -> Refused<Stop> {
        Refused::Fault(stop)
    }
}

fn last_line(tokens: &Tokens<'_>) -> u32
    ensures { result ≡ last_line 1 tokens.now }
{
    let mut line = 1;
    let mut rest = tokens.copy();
    while let Some((token, after)) = rest.first() {
        line = token.line;
        rest = after;
    }
    line
}

/// The fault of the place where reading of the tokens stops. Where they end too early, it goes to their end.
pub fn fault_of(stop: Stop, tokens: &Tokens<'_>) -> SyntaxFault
    ensures { result ≡ fault_of stop tokens.now }
{
    match stop {
        Stop::NotAllowed(line) => SyntaxFault {
            line,
            rule: SyntaxRule::S1,
        },
        Stop::TooDeep(line) => SyntaxFault {
            line,
            rule: SyntaxRule::S3,
        },
        Stop::Ends => SyntaxFault {
            line: last_line(tokens),
            rule: SyntaxRule::S2,
        },
    }
}
