//! The blocks of task code, in the order of the text.
ghost use Rattle.std.specs.Prelude.{◌≡◌, ℕ, ◌≤◌, ◌+◌, ◌++◌, OnOk, All};
ghost use Rattle.osek_values.specs.Numbers.{block_no as the_block_no};
ghost use Rattle.osek_standard.specs.declared.block.Kind.TheVariants as kind;
ghost use Rattle.oil_model.specs.Linkable.{IsLinkable};
ghost use Rattle.task_code.specs.{Fit.{HasCounts, IsFit}, Statements.{nodes as nodes_of, closed}, StatementLists.{statement_before, list_of}};
ghost use Rattle.block_graph.specs.Blocks.{block as the_block, entry as the_entry, end_kind as the_end_kind, size as the_size, blocks_of, body_blocks, source_size as the_source_size, source_blocks};
ghost use Rattle.block_graph.specs.StatementBlocks.{statement_nodes as the_statement_nodes, locks_behind as the_locks_behind, loop_kind as the_loop_kind, statement_blocks};

use crate::kinds::kind_of;
use crate::locks::Locks;
use crate::names::Declared;
use crate::walk::open_behind;
use osek_standard::{Block, Kind};
use osek_values::{BlockNo, Memory};
use task_code::{Body, BodyKind, Condition, Statement, StatementList};

/// A number of a block as a number of 16 bits.
pub fn block_no(number: usize) -> BlockNo
    requires { number ≤ 65535 }
    ensures { result ≡ the_block_no number }
{
    BlockNo(number as u16)
}

fn block(locks: &Locks, kind: Kind, line: u32, next: usize) -> Block
    requires { next ≤ 65535 }
    ensures { result ≡ the_block locks.now kind line next }
{
    Block {
        kind,
        locked: locks.is_locked(),
        line,
        next: block_no(next),
    }
}

fn work(count: u64) -> Kind
    requires { count ≤ 65535 }
    ensures { result ≡ kind.Work count }
{
    Kind::Work(count as u16)
}

/// What a loop's head does, where block `out` follows the loop.
fn loop_kind(condition: Condition, out: usize) -> Kind
    requires { out ≤ 65535 }
    ensures { result ≡ the_loop_kind condition out }
{
    match condition {
        Condition::Choice => Kind::Choice(block_no(out)),
        Condition::Always => Kind::Loop,
    }
}

/// How many statements there are in a statement, at all depths and itself among them.
#[cycle(nodes)]
fn statement_nodes(statement: &Statement) -> usize
    requires { the_statement_nodes statement.now ≤ 1024 }
    ensures { result ≡ the_statement_nodes statement.now }
{
    match statement {
        Statement::Work { line: _, count: _ } => 1,
        Statement::If {
            line: _,
            then,
            otherwise: None,
        } => nodes(then) + 1,
        Statement::If {
            line: _,
            then,
            otherwise: Some(otherwise),
        } => nodes(then) + nodes(otherwise) + 1,
        Statement::While {
            line: _,
            condition: _,
            body,
        } => nodes(body) + 1,
        Statement::Call { line: _, call: _ } => 1,
    }
}

/// How many statements there are in a list, at all depths.
#[cycle(nodes)]
pub fn nodes(list: &StatementList) -> usize
    requires { nodes_of list.now ≤ 1024 }
    ensures { result ≡ nodes_of list.now }
{
    let mut count = 0;
    for statement in list.as_slice() {
        count += statement_nodes(statement);
    }
    count
}

/// Where a list that begins at block `first` is entered: at its first statement, or where it has none at what follows it.
fn entry(list: &StatementList, first: usize, after: usize) -> usize
    ensures { result ≡ the_entry list.now first after }
{
    if list.as_slice().is_empty() {
        after
    } else {
        first
    }
}

/// The locks that are open behind a statement.
fn locks_behind(statement: &Statement, locks: &Locks) -> Locks
    ensures { result ≡ the_locks_behind statement.now locks.now }
{
    match statement {
        Statement::If {
            line: _,
            then,
            otherwise: Some(_),
        } => open_behind(then, locks),
        Statement::Call { line: _, call } => locks.open_behind_call(call),
        _ => locks.copy(),
    }
}

/// What follows a statement: the next of its list, or where there is none what follows the list.
fn follower(rest: &[Statement], behind: usize, after: usize) -> usize
    ensures { (close : ℕ) → result ≡ the_entry (list_of rest.now close) behind after }
{
    if rest.is_empty() { after } else { behind }
}

/// Adds the blocks of a statement that begins at block `number` and behind which block `out` follows.
#[cycle(layout)]
fn lay_out_statement(
    system: &Declared,
    statement: &Statement,
    number: usize,
    out: usize,
    locks: &Locks,
    blocks: &mut Vec<Block>,
) -> Result<(), Memory>
    requires linkable { IsLinkable system.now }
    requires counts { HasCounts (statement_before statement.now (closed 0)) }
    requires room { number + the_statement_nodes statement.now ≤ 1024 }
    requires inside { out ≤ 1024 }
    ensures { OnOk result (blocks.new.items ≡ blocks.old.items ++ statement_blocks system.now statement.now number out locks.now) }
{
    let first = number + 1;
    match statement {
        Statement::Work { line, count } => {
            blocks.push(block(locks, work(*count), *line, out))?;
            Ok(())
        }
        Statement::If {
            line,
            then,
            otherwise: None,
        } => {
            let next = entry(then, first, out);
            blocks.push(block(locks, Kind::Choice(block_no(out)), *line, next))?;
            lay_out(system, then, first, out, locks, blocks)?;
            Ok(())
        }
        Statement::If {
            line,
            then,
            otherwise: Some(otherwise),
        } => {
            let second = first + nodes(then);
            let other = entry(otherwise, second, out);
            let next = entry(then, first, out);
            blocks.push(block(locks, Kind::Choice(block_no(other)), *line, next))?;
            lay_out(system, then, first, out, locks, blocks)?;
            lay_out(system, otherwise, second, out, locks, blocks)?;
            Ok(())
        }
        Statement::While {
            line,
            condition,
            body,
        } => {
            let next = entry(body, first, number);
            blocks.push(block(locks, loop_kind(*condition, out), *line, next))?;
            lay_out(system, body, first, number, locks, blocks)?;
            Ok(())
        }
        Statement::Call { line, call } => {
            blocks.push(block(locks, kind_of(system, call), *line, out))?;
            Ok(())
        }
    }
}

/// Adds the blocks of a list that begins at block `first` and behind which block `after` follows.
#[cycle(layout)]
pub fn lay_out(
    system: &Declared,
    list: &StatementList,
    first: usize,
    after: usize,
    locks: &Locks,
    blocks: &mut Vec<Block>,
) -> Result<(), Memory>
    requires linkable { IsLinkable system.now }
    requires counts { HasCounts list.now }
    requires room { first + nodes_of list.now ≤ 1024 }
    requires inside { after ≤ 1024 }
    ensures { OnOk result (blocks.new.items ≡ blocks.old.items ++ blocks_of system.now list.now first after locks.now) }
{
    let mut number = first;
    let mut open = locks.copy();
    let statements = list.as_slice();
    for (i, statement) in statements.iter().enumerate() {
        let behind = number + statement_nodes(statement);
        let out = follower(&statements[i + 1..], behind, after);
        lay_out_statement(system, statement, number, out, &open, blocks)?;
        open = locks_behind(statement, &open);
        number = behind;
    }
    Ok(())
}

/// What a body's closing brace does.
fn end_kind(kind: BodyKind) -> Kind
    ensures { result ≡ the_end_kind kind }
{
    match kind {
        BodyKind::Task => Kind::TaskEnd,
        BodyKind::Isr => Kind::IsrEnd,
    }
}

/// How many blocks a body has.
pub fn size(body: &Body) -> usize
    requires { the_size body.now ≤ 1024 }
    ensures { result ≡ the_size body.now }
{
    nodes(&body.statements) + 1
}

/// How many blocks the bodies have.
pub fn source_size(bodies: &[Body]) -> usize
    requires { the_source_size bodies.now ≤ 1024 }
    ensures { result ≡ the_source_size bodies.now }
{
    let mut count = 0;
    for body in bodies {
        count += size(body);
    }
    count
}

/// Adds the blocks of a body that begins at block `number`. Its end goes nowhere.
fn lay_out_body(
    system: &Declared,
    body: &Body,
    number: usize,
    blocks: &mut Vec<Block>,
) -> Result<(), Memory>
    requires linkable { IsLinkable system.now }
    requires counts { HasCounts body.now.statements }
    requires room { number + the_size body.now ≤ 1024 }
    ensures { OnOk result (blocks.new.items ≡ blocks.old.items ++ body_blocks system.now body.now number) }
{
    let end = number + nodes(&body.statements);
    let open = Locks::new();
    lay_out(system, &body.statements, number, end, &open, blocks)?;
    let close = body.statements.closing_line();
    blocks.push(block(&open, end_kind(body.kind), close, end))?;
    Ok(())
}

/// Adds the blocks of the bodies, the first of them block 0.
pub fn lay_out_bodies(
    system: &Declared,
    bodies: &[Body],
    blocks: &mut Vec<Block>,
) -> Result<(), Memory>
    requires linkable { IsLinkable system.now }
    requires fit { All IsFit bodies.now }
    requires room { the_source_size bodies.now ≤ 1024 }
    ensures { OnOk result (blocks.new.items ≡ blocks.old.items ++ source_blocks system.now bodies.now 0) }
{
    let mut number = 0;
    for body in bodies {
        lay_out_body(system, body, number, blocks)?;
        number += size(body);
    }
    Ok(())
}
