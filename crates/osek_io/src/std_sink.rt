//! A sink over a standard stream.
ghost use Rattle.std.specs.Prelude.{◌≡◌};

use crate::counts::one_more;
use crate::failed::Failed;
use crate::sink::Sink;
use crate::stream::{Stream, write_some};

/// Standard output or standard error, as std's `stdout()` and `stderr()`, which hold nothing back. It tells what its stream
/// tells: those two nothing.
#[derive(Drop)]
pub struct StdSink<W> {
    stream: W,
    faults: u64,
}

impl<W: Stream> StdSink<W> {
    /// A sink over the stream, without a fault yet.
    pub fn new(stream: W) -> StdSink<W>
        ensures { result.faults ≡ 0 }
    {
        StdSink { stream, faults: 0 }
    }
}

impl<W: Stream> Sink for StdSink<W> {
    ghost written = { λ s. W.contents s.stream };

    ghost faults = { λ s. s.faults };

    fn put(&mut self, piece: &[u8]) -> Result<usize, Failed> {
        let result = write_some(&mut self.stream, piece);
        if result.is_err() {
            self.faults = one_more(self.faults);
        }
        result
    }
}
