//! The tree of an OIL file, or its first fault.
ghost use Rattle.std.specs.Prelude.{◌≡◌, ◌⊎◌, List, Result, Ok, Err};
ghost use Rattle.oil_lexer.specs.declared.token.Token.{Token};
ghost use Rattle.osek_values.specs.declared.{refused.LineFault.{LineFault}, refusal.SyntaxRule.{SyntaxRule}};
ghost use Rattle.oil_tree.specs.declared.tree.Tree.{Tree};
ghost use Rattle.osek_values.specs.Answers.{IsRight, Answers};
ghost use Rattle.oil_tree.specs.Answers.{IsAnswer};

use crate::error::ParseError;
use crate::file::whole;
use crate::tree::Tree;
use oil_lexer::{PhraseError, Tokens, fault_of};
use std::alloc::Global;

fn read(alloc: Global, tokens: &Tokens<'_>) -> Result<Tree, ParseError>
    ensures { IsRight (λ r. IsAnswer r tokens.now) result }
{
    match whole(alloc, tokens) {
        Ok(tree) => Ok(tree),
        Err(PhraseError::Fault(stop)) => Err(ParseError::Fault(fault_of(stop, tokens))),
        Err(PhraseError::Memory) => Err(ParseError::Memory),
    }
}

/// The tree of an OIL file (ISO 17356-6, the grammar of OIL; the limit of depth is this project's profile), or the first
/// fault of its tokens.
pub fn parse(alloc: Global, tokens: &Tokens<'_>) -> Result<Tree, ParseError>
    // What is answered is right,
    ensures right { IsRight (λ r. IsAnswer r tokens.now) result }

    // and what is right is answered, unless memory runs out.
    ensures exact { (expected : Result Tree (LineFault SyntaxRule)) → IsAnswer expected tokens.now → Answers result expected }
{
    read(alloc, tokens)
}

/// A law: each list of tokens has one tree or first fault, and no other. It does nothing.
pub fn one_answer()
    ensures some { (tokens : List Token) → (answer : Result Tree (LineFault SyntaxRule)) × IsAnswer answer tokens }
    ensures one { (tokens : List Token) (a b : Result Tree (LineFault SyntaxRule))
        → IsAnswer a tokens → IsAnswer b tokens → a ≡ b }
{}
