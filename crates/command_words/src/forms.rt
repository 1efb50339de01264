//! Which words are of a form.
ghost use Rattle.std.specs.{Prelude.{◌≡◌, map, length}, List.{list_all, list_any}, String.{string_bytes}};
ghost use Rattle.command_words.specs.Forms.{is_plain as is_plain_word, is_verb as is_a_verb, is_form, takes as the_verb_takes, verb_of, verbs};

/// A stated form: a verb, and what each word behind it names.
#[derive(Clone, Copy)]
pub struct Form {
    pub verb: &'static str,
    pub words: &'static [&'static str],
}

/// The table of forms: a row for each verb.
static FORMS: [Form; 12] = [
    Form {
        verb: "build",
        words: &["OIL", "CODE", "IMAGE"],
    },
    Form {
        verb: "replay",
        words: &["IMAGE", "MODE", "EVENTS"],
    },
    Form {
        verb: "trace",
        words: &["OIL", "CODE", "MODE", "EVENTS"],
    },
    Form {
        verb: "show",
        words: &["OIL", "CODE"],
    },
    Form {
        verb: "report",
        words: &["OIL", "CODE"],
    },
    Form {
        verb: "gen",
        words: &["SEED", "TASKS"],
    },
    Form {
        verb: "info",
        words: &["IMAGE"],
    },
    Form {
        verb: "upgrade",
        words: &["IN", "OUT"],
    },
    Form {
        verb: "certify",
        words: &["OIL", "CODE", "IMAGE", "TABLE"],
    },
    Form {
        verb: "check",
        words: &["IMAGE", "TABLE"],
    },
    Form {
        verb: "record",
        words: &["IMAGE", "MODE", "EVENTS"],
    },
    Form {
        verb: "watch",
        words: &["OIL", "CODE", "RECORD"],
    },
];

/// The stated forms, one of each verb.
pub fn forms() -> &'static [Form]
    ensures { map verb_of result.now ≡ verbs }
{
    FORMS.as_slice()
}

fn is_plain(word: &str) -> bool
    ensures { result ≡ is_plain_word word.now }
{
    match word.as_bytes() {
        [] => false,
        [first, ..] => *first != b'-',
    }
}

fn are_plain(words: &[String]) -> bool
    ensures { result ≡ list_all (λ w. is_plain_word (string_bytes w)) words.now }
{
    words.iter().all(|word| is_plain(word.as_str()))
}

/// Whether the verb is the form's, and takes so many words.
fn takes(form: &Form, verb: &str, count: usize) -> bool
    ensures { result ≡ the_verb_takes (verb_of form.now) verb.now count }
{
    form.verb == verb && count == form.words.len()
}

fn any_takes(forms: &[Form], verb: &str, count: usize) -> bool
    ensures { result ≡ list_any (λ form. the_verb_takes (verb_of form) verb.now count) forms.now }
{
    forms.iter().any(|form| takes(form, verb, count))
}

#[tactic(auto, using(osek_values::proofs::Lists::any_of_map))]
fn is_verb(verb: &str, count: usize) -> bool
    ensures { result ≡ is_a_verb verb.now count }
{
    any_takes(forms(), verb, count)
}

/// Whether there is a verb behind the program's name, and behind it as many words as it takes. No word is empty or
/// begins with `-`.
pub fn has_form(words: &[String]) -> bool
    ensures { result ≡ is_form (map string_bytes words.now) }
{
    match words {
        [_, verb, rest @ ..] => are_plain(rest) && is_verb(verb, rest.len()),
        _ => false,
    }
}
