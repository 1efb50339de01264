//! What a play prints of an image at work.

/// What is printed after the start, and after each event.
#[derive(Clone, Copy)]
pub enum Showing {
    /// The line of the trace.
    Trace,
    /// The point of the state.
    Points,
}
