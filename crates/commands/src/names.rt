//! What the words of a command name.
ghost use Rattle.std.specs.Prelude.{◌≡◌, option_map};
ghost use Rattle.commands.specs.{Names.{command_names, names_of as the_names, input_name, output_name}, Seen.{seen, seen_names}};

use crate::words::Command;
use command_runs::{Input, Output};

/// A field for each kind of word that names something: the word, or an empty one where the command has none of the kind.
#[derive(Clone, Copy)]
pub struct Names<'a> {
    pub oil: &'a str,
    pub code: &'a str,
    pub image: &'a str,
    pub table: &'a str,
    pub upgraded: &'a str,
    pub mode: &'a str,
    pub events: &'a str,
    pub points: &'a str,
}

const NO_NAMES: Names<'static> = Names {
    oil: "",
    code: "",
    image: "",
    table: "",
    upgraded: "",
    mode: "",
    events: "",
    points: "",
};

// each arm copies one word: an arm that built all names would be proved a word at a time in each of the twelve
impl<'a> Command<'a> {
    fn oil(&self) -> &'a str
        ensures { result.now ≡ (command_names (seen self.now)).oil }
    {
        match self {
            Command::Build { oil, .. }
            | Command::Trace { oil, .. }
            | Command::Show { oil, .. }
            | Command::Report { oil, .. }
            | Command::Certify { oil, .. }
            | Command::Watch { oil, .. } => oil,
            _ => "",
        }
    }

    fn code(&self) -> &'a str
        ensures { result.now ≡ (command_names (seen self.now)).code }
    {
        match self {
            Command::Build { code, .. }
            | Command::Trace { code, .. }
            | Command::Show { code, .. }
            | Command::Report { code, .. }
            | Command::Certify { code, .. }
            | Command::Watch { code, .. } => code,
            _ => "",
        }
    }

    fn image(&self) -> &'a str
        ensures { result.now ≡ (command_names (seen self.now)).image }
    {
        match self {
            Command::Build { image, .. }
            | Command::Replay { image, .. }
            | Command::Info { image }
            | Command::Upgrade { image, .. }
            | Command::Certify { image, .. }
            | Command::Check { image, .. }
            | Command::Record { image, .. } => image,
            _ => "",
        }
    }

    fn table(&self) -> &'a str
        ensures { result.now ≡ (command_names (seen self.now)).table }
    {
        match self {
            Command::Certify { table, .. } | Command::Check { table, .. } => table,
            _ => "",
        }
    }

    fn upgraded(&self) -> &'a str
        ensures { result.now ≡ (command_names (seen self.now)).upgraded }
    {
        match self {
            Command::Upgrade { upgraded, .. } => upgraded,
            _ => "",
        }
    }

    fn mode(&self) -> &'a str
        ensures { result.now ≡ (command_names (seen self.now)).mode }
    {
        match self {
            Command::Replay { mode, .. }
            | Command::Trace { mode, .. }
            | Command::Record { mode, .. } => mode,
            _ => "",
        }
    }

    fn events(&self) -> &'a str
        ensures { result.now ≡ (command_names (seen self.now)).events }
    {
        match self {
            Command::Replay { events, .. }
            | Command::Trace { events, .. }
            | Command::Record { events, .. } => events,
            _ => "",
        }
    }

    fn points(&self) -> &'a str
        ensures { result.now ≡ (command_names (seen self.now)).points }
    {
        match self {
            Command::Watch { points, .. } => points,
            _ => "",
        }
    }

    fn names(&self) -> Names<'a>
        ensures { seen_names result ≡ command_names (seen self.now) }
    {
        Names {
            oil: self.oil(),
            code: self.code(),
            image: self.image(),
            table: self.table(),
            upgraded: self.upgraded(),
            mode: self.mode(),
            events: self.events(),
            points: self.points(),
        }
    }
}

/// What the words name: nothing where they are of no stated form.
pub fn names_of<'a>(command: &Option<Command<'a>>) -> Names<'a>
    ensures { seen_names result ≡ the_names (option_map seen command.now) }
{
    match command {
        Some(command) => command.names(),
        None => NO_NAMES,
    }
}

impl<'a> Names<'a> {
    /// The word that names an input.
    pub fn input(&self, input: Input) -> &'a str
        ensures { result.now ≡ input_name (seen_names self.now) input }
    {
        match input {
            Input::Oil => self.oil,
            Input::Code => self.code,
            Input::Image => self.image,
            Input::Table => self.table,
            Input::Events => self.events,
            Input::Record => self.points,
        }
    }

    /// The word that names a file that is written.
    pub fn output(&self, output: Output) -> &'a str
        ensures { result.now ≡ output_name (seen_names self.now) output }
    {
        match output {
            Output::Image => self.image,
            Output::Table => self.table,
            Output::Upgraded => self.upgraded,
        }
    }
}
