//! The command, as clap has it.
ghost use Rattle.std.specs.{Prelude.{◌≡◌, ◌∷◌, [], IfOk, IsTrue, List, Some, map, fold, drop, false}, String.{string_bytes}, Borrow.{Bor}};
ghost use Rattle.clap.specs.{Words.{Text, app_of, subcommand_rows_of}, declared.builder.command.Command.TheViews.{out-Command as fields_of}};
ghost use Rattle.command_words.specs.{Command.{verb_app, with_verb, bare_app, the_app, words_row}, Forms.{is_form, verb_of}};

use crate::forms::{Form, forms};
use clap::{Arg, ArgMatches, Command};
use osek_values::Memory;
use std::alloc::{AllocError, Global};

/// The subcommand of a form: its verb, with one argument that takes all the words behind it.
fn verb<'a>(alloc: Global, form: Form) -> Result<Command<'a>, AllocError>
    ensures app { IfOk result (λ c. app_of c ≡ verb_app (verb_of form)) }
    ensures globals { IfOk result (λ c. (fields_of c).has_globals ≡ false) }
{
    let words = Arg::new(alloc, "words")
        .value_names(form.words)
        .required(true);
    Command::new(alloc, form.verb).arg(words)
}

/// The same command with one verb more.
fn add_verb<'a>(alloc: Global, command: Command<'a>, form: Form) -> Result<Command<'a>, AllocError>
    ensures { IfOk result (λ c. app_of c ≡ with_verb (app_of command.entry) (verb_of form)) }
{
    let verb = verb(alloc, form)?;
    command.subcommand(verb)
}

/// The same command with the verbs of the forms.
fn add_verbs<'a>(
    alloc: Global,
    command: Command<'a>,
    forms: &[Form],
) -> Result<Command<'a>, AllocError>
    ensures { IfOk result (λ c. app_of c ≡ fold with_verb (app_of command.entry) (map verb_of forms.now)) }
{
    let mut command = command;
    for form in forms {
        command = add_verb(alloc, command, *form)?;
    }
    Ok(command)
}

fn bare_command<'a>(alloc: Global) -> Command<'a>
    ensures { app_of result ≡ bare_app }
{
    Command::new(alloc, "osekfit")
        .disable_help_flag(true)
        .disable_help_subcommand(true)
        .subcommand_required(true)
}

fn whole_command<'a>(alloc: Global) -> Result<Command<'a>, AllocError>
    ensures { IfOk result (λ c. app_of c ≡ the_app) }
{
    add_verbs(alloc, bare_command(alloc), forms())
}

/// The words that clap has found behind the verb.
fn found_words<'a>(alloc: Global, matches: &ArgMatches<'a>) -> Result<Vec<&'a str>, Memory>
    ensures { IfOk result (λ v. (name : Text) (words : List Text) → subcommand_rows_of matches.now ≡ Some (name, words_row words ∷ []) → map (λ (w : Bor Text). w.now) v.items ≡ words) }
{
    let Some((_, found)) = matches.subcommand() else {
        return Err(Memory);
    };
    match found.get_strs("words") {
        Some(words) => Ok(Vec::from_slice(alloc, words)?),
        None => Err(Memory),
    }
}

/// The words behind the verb, as clap reads them. A refused parse of words that are of a form is want of memory.
pub fn parse_words<'a>(alloc: Global, words: &'a [String]) -> Result<Vec<&'a str>, Memory>
    requires form { IsTrue (is_form (map string_bytes words.now)) }
    ensures { IfOk result (λ v. map (λ (w : Bor Text). w.now) v.items ≡ drop 2 (map string_bytes words.now)) }
{
    let command = whole_command(alloc)?;
    let Ok(matches) = command.try_get_matches_from(words) else {
        return Err(Memory);
    };
    found_words(alloc, &matches)
}
