//! Why a rules text is not accepted, and where.

use crate::kinds::Kind;
use thiserror::Error;

/// A rules text is not accepted.
#[derive(Clone, Copy, Debug, PartialEq, Eq, Error)]
#[error("line {line}: {kind}")]
pub struct LoadFault {
    /// The line of the fault, counted from 1, or 0 where it is of the whole text.
    pub line: u64,
    /// What is wrong.
    pub kind: Kind,
}
