//! The system that an OIL text declares.
ghost use Rattle.std.specs.Prelude.{◌≡◌, IfOk, Result};
ghost use Rattle.osek_values.specs.declared.refusal.Refusal.{Refusal};
ghost use Rattle.oil_system.specs.declared.system.System.{System};
ghost use Rattle.oil_model.specs.Linkable.{IsLinkable};
ghost use Rattle.osek_values.specs.declared.refusal.TextFile.TheVariants as file;
ghost use Rattle.osek_values.specs.declared.refused.Refused.TheVariants as errors;
ghost use Rattle.osek_values.specs.Answers.{IsRight, Answers};
ghost use Rattle.front_end.specs.Answers.{IsOilAnswer};

use crate::error::TextError;
use oil_lexer::tokens;
use oil_model::{ModelError, resolve};
use oil_system::System;
use oil_tree::{ParseError, parse};
use osek_values::{Refusal, Rule, TextFile};
use std::alloc::Global;

fn refused(line: u32, rule: Rule) -> TextError
    ensures { result ≡ errors.Fault (record { file = file.Oil; line = line; rule = rule }) }
{
    TextError::Fault(Refusal {
        file: TextFile::Oil,
        line,
        rule,
    })
}

fn read(alloc: Global, text: &[u8]) -> Result<System, TextError>
    ensures right { IsRight (λ r. IsOilAnswer r text.now) result }
    ensures linkable { IfOk result IsLinkable }
{
    let tokens = match tokens(text) {
        Ok(tokens) => tokens,
        Err(fault) => return Err(refused(fault.line, Rule::Lex(fault.rule))),
    };
    let tree = match parse(alloc, &tokens) {
        Ok(tree) => tree,
        Err(ParseError::Fault(fault)) => {
            return Err(refused(fault.line, Rule::Syntax(fault.rule)));
        }
        Err(ParseError::Memory) => return Err(TextError::Memory),
    };
    match resolve(alloc, &tree) {
        Ok(system) => Ok(system),
        Err(ModelError::Fault(fault)) => Err(refused(fault.line, Rule::Oil(fault.rule))),
        Err(ModelError::Memory) => Err(TextError::Memory),
    }
}

/// The system that an OIL text declares (ISO 17356-6), or the first fault of the text.
pub fn read_system(alloc: Global, text: &[u8]) -> Result<System, TextError>
    // What is answered is right, and can be linked,
    ensures right { IsRight (λ r. IsOilAnswer r text.now) result }
    ensures linkable { IfOk result IsLinkable }

    // and what is right is answered, unless memory runs out.
    ensures exact { (expected : Result System Refusal) → IsOilAnswer expected text.now → Answers result expected }
{
    read(alloc, text)
}
