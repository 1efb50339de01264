//! The code of a list of tokens, or its first fault.
ghost use Rattle.std.specs.Prelude.{◌≡◌, List, Result, Ok, Err, IfOk};
ghost use Rattle.oil_lexer.specs.declared.token.Token.{Token};
ghost use Rattle.osek_values.specs.declared.refusal.Rule.TheVariants.{Syntax};
ghost use Rattle.oil_lexer.specs.Scan.{fault_of as the_fault_of};
ghost use Rattle.osek_values.specs.declared.{refused.LineFault.{LineFault}, refusal.Rule.{Rule}};
ghost use Rattle.task_code.specs.{declared.tree.Code.{Code}, Fit.{AreFit}};
ghost use Rattle.osek_values.specs.Answers.{IsRight, Answers};
ghost use Rattle.task_code.specs.Answers.{IsAnswer};

use crate::bodies::bodies;
use crate::error::{CodeError, CodeFault};
use crate::tree::Code;
use crate::works::wrong_work_in;
use oil_lexer::{PhraseError, Stop, Tokens, fault_of};
use osek_values::{CodeRule, Rule};
use std::alloc::Global;

fn syntax_fault(stop: Stop, tokens: &Tokens<'_>) -> CodeFault
    ensures rule { result.rule ≡ Syntax (the_fault_of stop tokens.now).rule }
    ensures line { result.line ≡ (the_fault_of stop tokens.now).line }
{
    let fault = fault_of(stop, tokens);
    CodeFault {
        line: fault.line,
        rule: Rule::Syntax(fault.rule),
    }
}

fn read(alloc: Global, tokens: &Tokens<'_>) -> Result<Code, CodeError>
    ensures right { IsRight (λ r. IsAnswer r tokens.now) result }
    ensures fit { IfOk result AreFit }
{
    let bodies = match bodies(alloc, tokens) {
        Ok(bodies) => bodies,
        Err(PhraseError::Fault(stop)) => {
            return Err(CodeError::Fault(syntax_fault(stop, tokens)));
        }
        Err(PhraseError::Memory) => return Err(CodeError::Memory),
    };
    match wrong_work_in(bodies.as_slice()) {
        Some(line) => Err(CodeError::Fault(CodeFault {
            line,
            rule: Rule::Code(CodeRule::C9),
        })),
        None => Ok(Code { bodies }),
    }
}

/// The code of a task code text (this project's profile), or the first fault of its tokens: of the grammar, and where
/// that has none the first `work` outside its range. Memory is taken for the code alone, and none for tokens.
pub fn parse_code(alloc: Global, tokens: &Tokens<'_>) -> Result<Code, CodeError>
    // What is answered is right, and can be linked,
    ensures right { IsRight (λ r. IsAnswer r tokens.now) result }
    ensures fit { IfOk result AreFit }

    // and what is right is answered, unless memory runs out.
    ensures exact { (expected : Result Code (LineFault Rule)) → IsAnswer expected tokens.now → Answers result expected }
{
    read(alloc, tokens)
}

/// A law: each list of tokens has one code or first fault, and no other. It does nothing.
pub fn one_answer()
    ensures some { (tokens : List Token) → (answer : Result Code (LineFault Rule)) × IsAnswer answer tokens }
    ensures one { (tokens : List Token) (a b : Result Code (LineFault Rule)) → IsAnswer a tokens → IsAnswer b tokens → a ≡ b }
{}
