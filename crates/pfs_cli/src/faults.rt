//! How a replay ends without its report: the faults, their texts and their statuses.

ghost use Rattle.std.specs.Prelude.{◌≡◌, Some};
ghost use Rattle.pfs_cli.specs.Faults.{fault_text, fault_status, replay_fault};

use pfs_conf::LoadFault;
use pfs_trace::TraceFault;
use std::{error, fmt};

/// Why a report is not whole. Rows count from 1 after the header, columns from 1.
#[derive(Clone, Copy, Debug, PartialEq, Eq)]
pub enum ReplayFault {
    /// The rules text is not accepted.
    Rules(LoadFault),
    /// The record of this row does not have nine fields. Row 0 is the header, which is not as it must be or is not there.
    Columns(u64),
    /// The field of this row and column is not accepted.
    Field(u64, u8),
    /// The moment of the record of this row is before that of the record before it.
    TimeFell(u64),
    /// The record of this row changes a table that the rules do not name, or that is `const`.
    Table(u64),
    /// There are more than 1,000,000,000 records.
    TooManyRows,
    /// A read of a reader failed.
    Read,
    /// A write or a flush of the writer failed, or a write took nothing.
    Write,
    /// Memory was refused.
    Memory,
    /// A reader gave a byte at each read of its bound, and did not end.
    Endless,
}

impl fmt::Display for ReplayFault {
    ghost output = { λ f. Some (fault_text f) };

    fn fmt<W: fmt::Write>(&self, f: &mut fmt::Formatter<W>) -> fmt::Result {
        match self {
            ReplayFault::Rules(fault) => {
                let LoadFault { line, kind } = fault;
                write!(f, "rules: line {line}: {kind}")
            }
            ReplayFault::Columns(row) => write!(f, "trace: row {row}: columns"),
            ReplayFault::Field(row, column) => write!(f, "trace: row {row}: field {column}"),
            ReplayFault::TimeFell(row) => write!(f, "trace: row {row}: time falls"),
            ReplayFault::Table(row) => write!(f, "trace: row {row}: table"),
            ReplayFault::TooManyRows => write!(f, "trace: too many rows"),
            ReplayFault::Read => write!(f, "read failed"),
            ReplayFault::Write => write!(f, "write failed"),
            ReplayFault::Memory => write!(f, "no memory"),
            ReplayFault::Endless => write!(f, "reader does not end"),
        }
    }
}

impl error::Error for ReplayFault {}

/// The exit status of a program that ends with this fault: 3 for the rules, 1 for the trace, 4 for
/// what is around them. Takes no memory.
pub fn status(fault: &ReplayFault) -> u8
    ensures { result ≡ fault_status fault.now }
{
    match fault {
        ReplayFault::Rules(_) => 3,
        ReplayFault::Columns(_)
        | ReplayFault::Field(_, _)
        | ReplayFault::TimeFell(_)
        | ReplayFault::Table(_)
        | ReplayFault::TooManyRows => 1,
        ReplayFault::Read | ReplayFault::Write | ReplayFault::Memory | ReplayFault::Endless => 4,
    }
}

/// The fault of a replay of a trace with this fault.
pub(crate) fn of_trace(fault: TraceFault) -> ReplayFault
    ensures { result ≡ replay_fault fault }
{
    match fault {
        TraceFault::Columns(row) => ReplayFault::Columns(row),
        TraceFault::Field(row, column) => ReplayFault::Field(row, column),
        TraceFault::TimeFell(row) => ReplayFault::TimeFell(row),
        TraceFault::Table(row) => ReplayFault::Table(row),
        TraceFault::TooManyRows => ReplayFault::TooManyRows,
    }
}
