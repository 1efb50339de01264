//! osekfit: fits an OSEK kernel to an application, and replays the image that it makes.
#![tactic(auto)]

use command_words::words_given;
use commands::osekfit;
use osek_io::{FileShelf, StdSink};
use std::process::ExitCode;

fn main(rt: HostRuntime) -> ExitCode {
    let Ok(words) = words_given(rt.alloc(), &rt) else {
        return ExitCode::from(7);
    };
    let mut shelf = FileShelf::new(&rt);
    let mut out = StdSink::new(rt.stdout());
    let mut err = StdSink::new(rt.stderr());
    ExitCode::from(osekfit(rt.alloc(), &words, &mut shelf, &mut out, &mut err))
}
