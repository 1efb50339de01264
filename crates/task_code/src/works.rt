//! The first `work` outside its range.
ghost use Rattle.std.specs.Prelude.{◌≡◌};
ghost use Rattle.task_code.specs.{Faults.{is_count as is_a_count, wrong_works, wrong_works_in}, FirstLines.{first_line, or_later}, Statements.{Statements}};
ghost use Rattle.task_code.specs.StatementLists.{statement_before};

use crate::tree::{Body, Statement, StatementList};

fn is_count(count: u64) -> bool
    ensures { result ≡ is_a_count count }
{
    1 <= count && count <= 65_535
}

/// The line of the first such `work` in a statement.
#[cycle(works)]
fn wrong_work_of(statement: &Statement) -> Option<u32>
    ensures { (next : Statements) → first_line (wrong_works (statement_before statement.now next)) ≡ or_later result (first_line (wrong_works next)) }
{
    match statement {
        Statement::Work { line, count } => { if is_count(*count) { None } else { Some(*line) } }
        Statement::If {
            line: _,
            then,
            otherwise: None,
        } => wrong_work(then),
        Statement::If {
            line: _,
            then,
            otherwise: Some(otherwise),
        } => match wrong_work(then) {
            Some(line) => Some(line),
            None => wrong_work(otherwise),
        },
        Statement::While {
            line: _,
            condition: _,
            body,
        } => wrong_work(body),
        Statement::Call { line: _, call: _ } => None,
    }
}

/// The line of the first such `work` in a list of statements.
#[cycle(works)]
fn wrong_work(list: &StatementList) -> Option<u32>
    ensures { result ≡ first_line (wrong_works list.now) }
{
    for statement in list.as_slice() {
        if let Some(line) = wrong_work_of(statement) {
            return Some(line);
        }
    }
    None
}

/// The line of the first such `work` in the bodies.
pub fn wrong_work_in(bodies: &[Body]) -> Option<u32>
    ensures { result ≡ first_line (wrong_works_in bodies.now) }
{
    for body in bodies {
        if let Some(line) = wrong_work(&body.statements) {
            return Some(line);
        }
    }
    None
}
