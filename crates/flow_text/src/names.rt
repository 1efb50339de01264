//! Forms, and what is known of a status, as they are printed.
ghost use Rattle.std.specs.Prelude.{◌≡◌, ◌+◌, ◌≤◌, ◌++◌, length, take};
ghost use Rattle.image_model.specs.Sites.{IsForm};
ghost use Rattle.flow_text.specs.FlowLines.{form_text, known_text};

use image_model::{Form, Known};
use osek_standard::App;
use osek_values::limits::MAX_NAME;
use text_pieces::put;
use trace_text::{put_task, status_name};

/// The most bytes of a form: `direct ` and a name.
pub(crate) const MAX_FORM: usize = 7 + MAX_NAME;
/// The most bytes of what is known of a status: E_OS_CALLEVEL or E_OS_RESOURCE.
pub(crate) const MAX_KNOWN: usize = 13;

/// A form, with the task that it dispatches.
pub(crate) fn put_form(buf: &mut [u8], at: usize, app: &App, form: Form) -> usize
    requires known { IsForm (length app.now.tasks) form }
    requires room { at + MAX_FORM ≤ length buf.old }
    ensures text { take result buf.new ≡ take at buf.old ++ form_text app.now form }
    ensures most { result ≤ at + MAX_FORM }
{
    match form {
        Form::Never => put(buf, at, b"never"),
        Form::Stay => put(buf, at, b"stay"),
        Form::Direct(task) => {
            let at = put(buf, at, b"direct ");
            put_task(buf, at, app, task)
        }
        Form::General => put(buf, at, b"general"),
    }
}

/// What is known of the status that a site's instruction notes.
pub(crate) fn put_known(buf: &mut [u8], at: usize, known: Known) -> usize
    requires room { at + MAX_KNOWN ≤ length buf.old }
    ensures text { take result buf.new ≡ take at buf.old ++ known_text known }
    ensures most { result ≤ at + MAX_KNOWN }
{
    match known {
        Known::Any => put(buf, at, b"any"),
        Known::Always(None) => put(buf, at, b"none"),
        Known::Always(Some(status)) => put(buf, at, status_name(status)),
    }
}
