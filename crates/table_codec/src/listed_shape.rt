//! What a component whose values are listed can be at a point.
use crate::shape::Shape;
use crate::source_shape::SourceShape;

/// What a task or a source can be at a point.
#[derive(Clone, Copy)]
pub(crate) enum ListedShape {
    Task(Shape),
    Source(SourceShape),
}
