//! The interrupt locks.

/// One of the six interrupt lock calls (ISO 17356-3, interrupt handling).
#[derive(Clone, Copy, PartialEq, Eq)]
pub enum Lock {
    SuspendAll,
    ResumeAll,
    SuspendOs,
    ResumeOs,
    DisableAll,
    EnableAll,
}
