//! The words of the command line.
ghost use Rattle.std.specs.{Prelude.{◌≡◌, ◌∷◌, [], ℕ, List, IfOk, map, option_map}, Borrow.{Bor}, String.{string_bytes}};
ghost use Rattle.commands.specs.{Words.{command_of, gen_of as the_gen_of, command_of_others as the_command_of_others, command_of_words as the_command_of_words}, Seen.{seen}};

use command_words::{has_form, parse_words, seed_of, tasks_of};
use osek_values::Memory;
use std::alloc::Global;

/// What the words ask for. Each name is the word as it was given.
#[derive(Clone, Copy)]
pub enum Command<'a> {
    /// `build OIL CODE IMAGE`
    Build {
        oil: &'a str,
        code: &'a str,
        image: &'a str,
    },
    /// `replay IMAGE MODE EVENTS`
    Replay {
        image: &'a str,
        mode: &'a str,
        events: &'a str,
    },
    /// `trace OIL CODE MODE EVENTS`
    Trace {
        oil: &'a str,
        code: &'a str,
        mode: &'a str,
        events: &'a str,
    },
    /// `show OIL CODE`
    Show {
        oil: &'a str,
        code: &'a str,
    },
    /// `report OIL CODE`
    Report {
        oil: &'a str,
        code: &'a str,
    },
    /// `info IMAGE`
    Info {
        image: &'a str,
    },
    /// `gen SEED TASKS`
    Gen {
        seed: u64,
        tasks: u32,
    },
    /// `upgrade IN OUT`
    Upgrade {
        image: &'a str,
        upgraded: &'a str,
    },
    /// `certify OIL CODE IMAGE TABLE`, which are not one file
    Certify {
        oil: &'a str,
        code: &'a str,
        image: &'a str,
        table: &'a str,
    },
    /// `check IMAGE TABLE`
    Check {
        image: &'a str,
        table: &'a str,
    },
    /// `record IMAGE MODE EVENTS`
    Record {
        image: &'a str,
        mode: &'a str,
        events: &'a str,
    },
    /// `watch OIL CODE RECORD`
    Watch {
        oil: &'a str,
        code: &'a str,
        points: &'a str,
    },
}

fn gen_of<'a>(seed: Option<u64>, tasks: Option<u32>) -> Option<Command<'a>>
    ensures { option_map seen result ≡ the_gen_of seed tasks }
{
    match (seed, tasks) {
        (Some(seed), Some(tasks)) => Some(Command::Gen { seed, tasks }),
        _ => None,
    }
}

fn command_of_two<'a>(verb: &str, a: &'a str, b: &'a str) -> Option<Command<'a>>
    ensures { option_map seen result ≡ the_command_of_words verb.now (a.now ∷ b.now ∷ []) }
{
    if verb == "show" {
        Some(Command::Show { oil: a, code: b })
    } else if verb == "report" {
        Some(Command::Report { oil: a, code: b })
    } else {
        command_of_others(verb, a, b)
    }
}

// the command of another verb that takes two words
fn command_of_others<'a>(verb: &str, a: &'a str, b: &'a str) -> Option<Command<'a>>
    ensures { option_map seen result ≡ the_command_of_others verb.now a.now b.now }
{
    if verb == "upgrade" {
        Some(Command::Upgrade {
            image: a,
            upgraded: b,
        })
    } else if verb == "check" {
        Some(Command::Check { image: a, table: b })
    } else {
        gen_of(seed_of(a), tasks_of(b))
    }
}

fn command_of_three<'a>(verb: &str, a: &'a str, b: &'a str, c: &'a str) -> Option<Command<'a>>
    ensures { option_map seen result ≡ the_command_of_words verb.now (a.now ∷ b.now ∷ c.now ∷ []) }
{
    if verb == "build" {
        Some(Command::Build {
            oil: a,
            code: b,
            image: c,
        })
    } else if verb == "replay" {
        Some(Command::Replay {
            image: a,
            mode: b,
            events: c,
        })
    } else if verb == "record" {
        Some(Command::Record {
            image: a,
            mode: b,
            events: c,
        })
    } else {
        Some(Command::Watch {
            oil: a,
            code: b,
            points: c,
        })
    }
}

fn command_of_four<'a>(
    verb: &str,
    a: &'a str,
    b: &'a str,
    c: &'a str,
    d: &'a str,
) -> Option<Command<'a>>
    ensures { option_map seen result ≡ the_command_of_words verb.now (a.now ∷ b.now ∷ c.now ∷ d.now ∷ []) }
{
    if verb == "trace" {
        Some(Command::Trace {
            oil: a,
            code: b,
            mode: c,
            events: d,
        })
    } else if c == d {
        None
    } else {
        Some(Command::Certify {
            oil: a,
            code: b,
            image: c,
            table: d,
        })
    }
}

/// The command of a verb, which takes these words.
fn command_of_words<'a>(verb: &str, words: &[&'a str]) -> Option<Command<'a>>
    ensures { option_map seen result ≡ the_command_of_words verb.now (map (λ (w : Bor (List ℕ)). w.now) words.now) }
{
    match words {
        [image] => Some(Command::Info { image }),
        [a, b] => command_of_two(verb, a, b),
        [a, b, c] => command_of_three(verb, a, b, c),
        [a, b, c, d] => command_of_four(verb, a, b, c, d),
        _ => None,
    }
}

/// The command of the words, of which the first is the program's name; None where they are of no stated form. No word
/// after the first is empty or begins with `-`. Only words of a verb, and as many as it takes, are given to `clap`.
pub fn command_from<'a>(alloc: Global, words: &'a [String]) -> Result<Option<Command<'a>>, Memory>
    ensures { IfOk result (λ command. option_map seen command ≡ command_of (map string_bytes words.now)) }
{
    let [_, verb, ..] = words else {
        return Ok(None);
    };
    if !has_form(words) {
        return Ok(None);
    }
    let given = parse_words(alloc, words)?;
    Ok(command_of_words(verb, &given))
}
