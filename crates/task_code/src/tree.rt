//! The tree of a task code text: bodies, and statements within statements.
use crate::call::{Call, Reference};
use osek_values::Seq;
use std::marker::Model;

/// The condition of a loop.
#[derive(Clone, Copy)]
pub enum Condition {
    /// `?`: each run chooses.
    Choice,
    /// `1`: the loop is endless.
    Always,
}

/// A statement. Its line is that of its first token.
#[cycle(statements)]
#[derive(Drop)]
pub enum Statement {
    Work {
        line: u32,
        /// How many instructions it takes.
        count: u64,
    },
    If {
        line: u32,
        then: StatementList,
        /// The branch behind `else`: no `else` is another thing than one with an empty branch.
        otherwise: Option<StatementList>,
    },
    While {
        line: u32,
        condition: Condition,
        body: StatementList,
    },
    Call {
        line: u32,
        call: Call,
    },
}

/// The statements between two braces, in the order of the text, and the line of the closing brace. Contracts see it
/// and all the lists in it as data.
#[cycle(statements)]
#[derive(Drop)]
pub struct StatementList {
    statements: Vec<Statement>,
    close: u32,
}

impl Model for StatementList {
    ghost use Rattle.task_code.specs.Statements.{Statements, statements_code, nodes};

    ghost Value = { Statements };

    ghost coded = { statements_code };

    ghost use Rattle.task_code.specs.StatementLists.{list_of};

    ghost view = { λ a. list_of a.statements.items a.close };

    ghost size = { nodes };

    ghost use Rattle.task_code.specs.StatementFalls.{most_deep-le-nodes, within};

    ghost size_decreases = { λ a h. within _ _ (most_deep-le-nodes a.statements.items a.close) };
}

impl StatementList {
    ghost use Rattle.std.specs.Prelude.{◌≡◌};
    ghost use Rattle.task_code.specs.{Statements.{closing_line}, StatementLists.{list_of}};

    /// The statements of a `Vec` and the line of the closing brace. It takes no memory, and keeps no room for more: most
    /// lists are short.
    pub fn from_vec(mut statements: Vec<Statement>, close: u32) -> Self
        ensures { result ≡ list_of statements.items close }
    {
        statements.shrink_to_fit();
        StatementList { statements, close }
    }

    /// The statements, as a slice.
    pub fn as_slice(&self) -> &[Statement]
        ensures { list_of result.now (closing_line self.now) ≡ self.now }
    {
        self.statements.as_slice()
    }

    /// The line of the closing brace.
    pub fn closing_line(&self) -> u32
        ensures { result ≡ closing_line self.now }
    {
        self.close
    }
}

/// Whose code it is.
#[derive(Clone, Copy)]
pub enum BodyKind {
    Task,
    Isr,
}

/// The code of a task or of an ISR.
#[derive(Drop)]
pub struct Body {
    pub kind: BodyKind,
    /// The line of `TASK` or `ISR`.
    pub line: u32,
    /// The name of the task or ISR.
    pub owner: Reference,
    pub statements: StatementList,
}

/// A task code text: its bodies in order.
#[derive(Drop)]
pub struct Code {
    pub bodies: Seq<Body>,
}
