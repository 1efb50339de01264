//! The lines of findings.
ghost use Rattle.std.specs.Prelude.{◌≡◌, ◌≤◌, length, take};
ghost use Rattle.flow_report.specs.Findings.{IsHook, IsOf};
ghost use Rattle.flow_report.specs.FindingLines.{finding_words, finding_line, hook_name as name_of_hook};

use crate::finding::Finding;
use osek_standard::App;
use osek_values::HookSet;
use osek_values::limits::{LINE_MAX, MAX_NAME};
use text_pieces::{MAX_HEXADECIMAL, put, put_hexadecimal, put_name};
use trace_text::put_block;

/// The most bytes of the words of a finding: `suspended ` and a name, or `unset `, a name and an event.
const MAX_WORDS: usize = 10 + MAX_NAME + 1 + MAX_HEXADECIMAL;

/// The name of a hook.
fn hook_name(hook: HookSet) -> &'static [u8]
    requires { IsHook hook.0 }
    ensures text { result.now ≡ name_of_hook hook.0 }
    ensures most { length result.now ≤ 8 }
{
    if hook == HookSet::ERROR {
        b"Error"
    } else if hook == HookSet::STARTUP {
        b"Startup"
    } else if hook == HookSet::SHUTDOWN {
        b"Shutdown"
    } else if hook == HookSet::POST_TASK {
        b"PostTask"
    } else {
        b"PreTask"
    }
}

fn put_finding(buf: &mut [u8], app: &App, finding: Finding) -> usize
    requires of { IsOf app.now finding }
    requires room { MAX_WORDS ≤ length buf.old }
    ensures text { take result buf.new ≡ finding_words app.now finding }
    ensures most { result ≤ MAX_WORDS }
{
    match finding {
        Finding::Suspended(task) => {
            let at = put(buf, 0, b"suspended ");
            put_name(buf, at, &app.task(task).name)
        }
        Finding::Unarmed(alarm) => {
            let at = put(buf, 0, b"unarmed ");
            put_name(buf, at, &app.alarm(alarm).name)
        }
        Finding::Unset(task, event) => {
            let at = put(buf, 0, b"unset ");
            let at = put_name(buf, at, &app.task(task).name);
            let at = put(buf, at, b" ");
            put_hexadecimal(buf, at, event.0)
        }
        Finding::Silent(hook) => {
            let at = put(buf, 0, b"silent ");
            put(buf, at, hook_name(hook))
        }
        Finding::Free(block) => {
            let at = put(buf, 0, b"free ");
            put_block(buf, at, block)
        }
        Finding::Dead(block) => {
            let at = put(buf, 0, b"dead ");
            put_block(buf, at, block)
        }
    }
}

/// Writes the line of a finding, and answers its length. It takes no memory.
pub fn write_finding_line(app: &App, finding: Finding, buf: &mut [u8]) -> usize
    requires of { IsOf app.now finding }
    requires room { LINE_MAX ≤ length buf.old }
    ensures line { take result buf.new ≡ finding_line app.now finding }
    ensures most { result ≤ LINE_MAX }
{
    let at = put_finding(buf, app, finding);
    put(buf, at, b"\n")
}
