//! Why a test has nothing to begin with.

use pfs_conf::{Kind, LoadFault};

/// Why packets, rules or events for a test could not be made.
#[derive(Debug, Clone, Copy, PartialEq, Eq)]
pub enum CaseError {
    /// Memory was refused.
    Memory,
    /// The name of an interface, a rules text or the words of an outcome could not be read.
    Unreadable,
}

impl From<LoadFault> for CaseError {
    fn from(error: LoadFault) -> CaseError {
        match error.kind {
            Kind::Memory => CaseError::Memory,
            _ => CaseError::Unreadable,
        }
    }
}

/// What a call that grows something returned, with the value that was refused given up.
pub fn grown<T, E: Drop>(answer: Result<T, E>) -> Result<T, CaseError> {
    answer.map_err(|_| CaseError::Memory)
}
