//! The application that a task code text gives.
ghost use Rattle.std.specs.Prelude.{◌≡◌, Result};
ghost use Rattle.osek_values.specs.declared.refusal.Refusal.{Refusal};
ghost use Rattle.osek_standard.specs.declared.app.App.{App};
ghost use Rattle.oil_model.specs.Linkable.{IsLinkable};
ghost use Rattle.osek_values.specs.declared.refusal.TextFile.TheVariants as file;
ghost use Rattle.osek_values.specs.declared.refused.Refused.TheVariants as errors;
ghost use Rattle.osek_values.specs.Answers.{IsRight, Answers};
ghost use Rattle.front_end.specs.Answers.{IsCodeAnswer};

use crate::error::TextError;
use block_graph::{LinkError, link};
use oil_lexer::tokens;
use oil_system::System;
use osek_standard::App;
use osek_values::{Refusal, Rule, TextFile};
use std::alloc::Global;
use task_code::{CodeError, parse_code};

fn refused(line: u32, rule: Rule) -> TextError
    ensures { result ≡ errors.Fault (record { file = file.Code; line = line; rule = rule }) }
{
    TextError::Fault(Refusal {
        file: TextFile::Code,
        line,
        rule,
    })
}

fn read(alloc: Global, system: System, text: &[u8]) -> Result<App, TextError>
    requires { IsLinkable system }
    ensures { IsRight (λ r. IsCodeAnswer r system text.now) result }
{
    let tokens = match tokens(text) {
        Ok(tokens) => tokens,
        Err(fault) => {
            drop(system);
            return Err(refused(fault.line, Rule::Lex(fault.rule)));
        }
    };
    let code = match parse_code(alloc, &tokens) {
        Ok(code) => code,
        Err(CodeError::Fault(fault)) => {
            drop(system);
            return Err(refused(fault.line, fault.rule));
        }
        Err(CodeError::Memory) => {
            drop(system);
            return Err(TextError::Memory);
        }
    };
    match link(alloc, system, &code) {
        Ok(app) => Ok(app),
        Err(LinkError::Fault(fault)) => Err(refused(fault.line, Rule::Code(fault.rule))),
        Err(LinkError::Memory) => Err(TextError::Memory),
    }
}

/// The application that a task code text gives beside a system (this project's profile), or the first fault of the text.
pub fn read_app(alloc: Global, system: System, text: &[u8]) -> Result<App, TextError>
    requires linkable { IsLinkable system }

    // What is answered is right,
    ensures right { IsRight (λ r. IsCodeAnswer r system text.now) result }

    // and what is right is answered, unless memory runs out.
    ensures exact { (expected : Result App Refusal) → IsCodeAnswer expected system text.now → Answers result expected }
{
    read(alloc, system, text)
}
