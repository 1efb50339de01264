//! What a row is: files, what is done with them, and what is wanted of each run.
use crate::text::Text;

/// A row: what is done, one act after the other. The files that an act leaves stand for those behind it.
#[derive(Drop)]
pub struct Row<'a> {
    pub line: u64,
    pub name: &'a str,
    pub acts: Vec<Act<'a>>,
}

#[derive(Drop)]
pub enum Act<'a> {
    /// A file of this text, in place of one of its name.
    File(&'a str, Text<'a>),
    Change(Change<'a>),
    /// A run with these words behind the program's name.
    Run(Vec<&'a str>, Wanted<'a>),
    /// All runs of the application of `a.oil` and `a.c` under the events of `e`, in this mode.
    Play(&'a str, Wanted<'a>),
}

/// A file that is another with something changed. The two may have one name.
#[derive(Drop)]
pub struct Change<'a> {
    pub line: u64,
    pub to: &'a str,
    pub from: &'a str,
    pub how: How<'a>,
}

#[derive(Drop)]
pub enum How<'a> {
    /// Only so many bytes are left.
    Cut(u64),
    /// From a place on, these bytes stand in place of as many others.
    Set(u64, Text<'a>),
    /// These bytes stand behind the others.
    Add(Text<'a>),
    /// From a place on, so many bytes are taken out.
    Remove(u64, u64),
}

/// How a run is made, and what is wanted of it.
#[derive(Drop)]
pub struct Wanted<'a> {
    pub line: u64,
    /// The calls that fail.
    pub faults: Vec<Fault>,
    /// Whether each call moves one byte at most.
    pub by_bytes: bool,
    pub status: u64,
    pub facts: Vec<Fact<'a>>,
}

/// Where a call is made.
#[derive(Clone, Copy, PartialEq, Eq)]
pub enum Side {
    Shelf,
    Out,
    Err,
}

/// A call that fails, by its number among those of its side, from 1. From `first` to `last` there is a run for each.
#[derive(Clone, Copy)]
pub struct Fault {
    pub side: Side,
    pub first: u64,
    pub last: u64,
}

/// What is wanted of a run beside its status.
#[derive(Drop)]
pub struct Fact<'a> {
    pub line: u64,
    pub what: What<'a>,
}

#[derive(Drop)]
pub enum What<'a> {
    /// What is printed, all of it.
    Out(Text<'a>),
    /// What is printed is a first part of this text.
    PartOfOut(Text<'a>),
    /// How what is printed begins.
    Begins(Text<'a>),
    /// How what is printed ends.
    Ends(Text<'a>),
    /// The line of a number, from 0, of what is printed.
    Line(u64, &'a str),
    /// One of the lines that are printed.
    Has(&'a str),
    /// How many lines are printed.
    Count(u64),
    /// The form of a call site that is printed: the site's block, and the form.
    Site(&'a str, &'a str),
    /// A block of which no call site is printed.
    NoSite(&'a str),
    /// The name of a file that what is printed becomes.
    Keep(&'a str),
    /// What is told on err, all of it.
    Err(Text<'a>),
    /// What is told on err is a first part of this text.
    PartOfErr(Text<'a>),
    /// All bytes of a file.
    Holds(&'a str, Text<'a>),
    /// A file's bytes are a first part of this text.
    PartOfFile(&'a str, Text<'a>),
    /// A name without a file.
    Missing(&'a str),
    /// How many bytes a file has.
    Size(&'a str, u64),
    /// The bytes of a file from a place on.
    At(&'a str, u64, Text<'a>),
}

impl What<'_> {
    /// Whether it says something of what is printed.
    pub fn is_of_out(&self) -> bool {
        match self {
            What::Out(_)
            | What::PartOfOut(_)
            | What::Begins(_)
            | What::Ends(_)
            | What::Line(_, _)
            | What::Has(_)
            | What::Count(_)
            | What::Site(_, _)
            | What::NoSite(_) => true,
            What::Keep(_)
            | What::Err(_)
            | What::PartOfErr(_)
            | What::Holds(_, _)
            | What::PartOfFile(_, _)
            | What::Missing(_)
            | What::Size(_, _)
            | What::At(_, _, _) => false,
        }
    }

    /// Whether it says something of what is told on err.
    pub fn is_of_err(&self) -> bool {
        matches!(self, What::Err(_) | What::PartOfErr(_))
    }
}

impl<'a> Wanted<'a> {
    /// Whether nothing says what is printed: then nothing may be.
    pub fn is_silent(&self) -> bool {
        !self.facts.iter().any(|fact| fact.what.is_of_out())
    }

    /// Whether nothing says what is told on err: then nothing may be.
    pub fn is_quiet(&self) -> bool {
        !self.facts.iter().any(|fact| fact.what.is_of_err())
    }
}
