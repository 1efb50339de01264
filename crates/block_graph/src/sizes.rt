//! The rule on how many blocks task code may have.
ghost use Rattle.std.specs.Prelude.{◌≡◌, ℕ, List, [], ◌∷◌, ◌++◌, drop, MatchResult};
ghost use Rattle.osek_values.specs.declared.limits.TheConstants.{MAX_SOURCE_BLOCKS};
ghost use Rattle.oil_model.specs.Lines.{least};
ghost use Rattle.task_code.specs.{Statements.{Statements, closing_line}, StatementLists.{statement_before}};
ghost use Rattle.block_graph.specs.Rules.{first_only, statement_lines, block_lines};
ghost use Rattle.block_graph.specs.Rules as rules_of;

use osek_values::limits::MAX_SOURCE_BLOCKS;
use task_code::{Body, Statement, StatementList};

/// How many blocks are still allowed behind one more, or its line where none is.
fn room_behind_block(room: usize, line: u32) -> Result<usize, u32>
    ensures { (more : List ℕ) → MatchResult result (λ left. drop room (line ∷ more) ≡ drop left more) (λ failing. first_only (drop room (line ∷ more)) ≡ failing ∷ []) }
{
    if room == 0 { Err(line) } else { Ok(room - 1) }
}

/// How many blocks are still allowed behind a statement, or the line of the first that is one too many.
#[cycle(rooms)]
fn room_behind_statement(room: usize, statement: &Statement) -> Result<usize, u32>
    ensures { (next : Statements) (more : List ℕ) → MatchResult result (λ left. drop room (statement_lines (statement_before statement.now next) ++ more) ≡ drop left (statement_lines next ++ more)) (λ failing. first_only (drop room (statement_lines (statement_before statement.now next) ++ more)) ≡ failing ∷ []) }
{
    match statement {
        Statement::Work { line, count: _ } => room_behind_block(room, *line),
        Statement::If {
            line,
            then,
            otherwise,
        } => {
            let inner = room_behind_block(room, *line)?;
            let second = room_behind(inner, then)?;
            match otherwise {
                Some(otherwise) => room_behind(second, otherwise),
                None => Ok(second),
            }
        }
        Statement::While {
            line,
            condition: _,
            body,
        } => {
            let inner = room_behind_block(room, *line)?;
            let left = room_behind(inner, body)?;
            Ok(left)
        }
        Statement::Call { line, call: _ } => room_behind_block(room, *line),
    }
}

/// How many blocks are still allowed behind a list of statements, or the line of the first that is one too many.
#[cycle(rooms)]
fn room_behind(room: usize, list: &StatementList) -> Result<usize, u32>
    ensures { (more : List ℕ) → MatchResult result (λ left. drop room (statement_lines list.now ++ more) ≡ drop left more) (λ failing. first_only (drop room (statement_lines list.now ++ more)) ≡ failing ∷ []) }
{
    let mut left = room;
    for statement in list.as_slice() {
        left = room_behind_statement(left, statement)?;
    }
    Ok(left)
}

/// The same behind a body, whose closing brace is a block too.
fn room_behind_body(room: usize, body: &Body) -> Result<usize, u32>
    ensures { (more : List ℕ) → MatchResult result (λ left. drop room ((statement_lines body.now.statements ++ closing_line body.now.statements ∷ []) ++ more) ≡ drop left more) (λ failing. first_only (drop room ((statement_lines body.now.statements ++ closing_line body.now.statements ∷ []) ++ more)) ≡ failing ∷ []) }
{
    let last = room_behind(room, &body.statements)?;
    let left = room_behind_block(last, body.statements.closing_line())?;
    Ok(left)
}

/// Whether there is room for all bodies, or the line of the first block that is one too many.
fn room_for_bodies(room: usize, bodies: &[Body]) -> Result<(), u32>
    ensures { MatchResult result (λ _. drop room (block_lines bodies.now) ≡ []) (λ failing. first_only (drop room (block_lines bodies.now)) ≡ failing ∷ []) }
{
    let mut left = room;
    for body in bodies {
        left = room_behind_body(left, body)?;
    }
    Ok(())
}

/// The line of the first block that is one too many.
pub fn beyond_limit(bodies: &[Body]) -> Option<u32>
    ensures { result ≡ least (rules_of.beyond_limit bodies.now) }
{
    match room_for_bodies(MAX_SOURCE_BLOCKS, bodies) {
        Ok(()) => None,
        Err(line) => Some(line),
    }
}
