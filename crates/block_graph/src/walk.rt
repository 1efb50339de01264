//! The walk through statements with the interrupt locks that are open.
ghost use Rattle.std.specs.Prelude.{◌≡◌, Result, Ok, Err, MatchResult};
ghost use Rattle.task_code.specs.{Statements.{Statements}, StatementLists.{statement_before}};
ghost use Rattle.block_graph.specs.Locks.{closes, walked, open_behind as open_behind_the};

use crate::locks::Locks;
use task_code::{Statement, StatementList};

/// The locks at a closing brace, where they are the wanted ones; else its line.
fn closed_with(behind: Locks, wanted: &Locks, line: u32) -> Result<Locks, u32>
    ensures { result ≡ closes (Ok behind) wanted.now line (λ locks. Ok locks) }
{
    if behind.are_same(wanted) {
        Ok(behind)
    } else {
        Err(line)
    }
}

/// The locks that are open behind a statement, by those before it; or the line of the first token that fails.
#[cycle(walking)]
fn walk_statement(statement: &Statement, locks: &Locks) -> Result<Locks, u32>
    ensures { (next : Statements) → MatchResult result (λ behind. walked (statement_before statement.now next) locks.now ≡ walked next behind) (λ line. walked (statement_before statement.now next) locks.now ≡ Err line) }
{
    match statement {
        Statement::Work { line: _, count: _ } => Ok(locks.copy()),
        Statement::If {
            line: _,
            then,
            otherwise: None,
        } => {
            let behind = walk(then, locks)?;
            let closed = closed_with(behind, locks, then.closing_line())?;
            Ok(closed)
        }
        Statement::If {
            line: _,
            then,
            otherwise: Some(otherwise),
        } => {
            let wanted = walk(then, locks)?;
            let behind = walk(otherwise, locks)?;
            let closed = closed_with(behind, &wanted, otherwise.closing_line())?;
            Ok(closed)
        }
        Statement::While {
            line: _,
            condition: _,
            body,
        } => {
            let behind = walk(body, locks)?;
            let closed = closed_with(behind, locks, body.closing_line())?;
            Ok(closed)
        }
        Statement::Call { line, call } => match locks.behind_call(call) {
            Some(behind) => Ok(behind),
            None => Err(*line),
        },
    }
}

/// The locks that are open at the end of a list of statements, by those before it; or the line of the first token that
/// fails.
#[cycle(walking)]
pub fn walk(list: &StatementList, locks: &Locks) -> Result<Locks, u32>
    ensures { result ≡ walked list.now locks.now }
{
    let mut open = locks.copy();
    for statement in list.as_slice() {
        let behind = walk_statement(statement, &open)?;
        open = behind;
    }
    Ok(open)
}

/// The locks that are open at the end of a list of statements, as far as none fails.
pub fn open_behind(list: &StatementList, locks: &Locks) -> Locks
    ensures { result ≡ open_behind_the list.now locks.now }
{
    match walk(list, locks) {
        Ok(behind) => behind,
        Err(_) => locks.copy(),
    }
}
