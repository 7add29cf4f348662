//! What is wrong with a trace.

/// What is wrong with a trace. Rows count from 1 after the header, columns from 1.
#[derive(Clone, Copy, Debug, PartialEq, Eq)]
pub enum TraceFault {
    /// The record of this row, or the header at row 0, is not of nine fields, or not there.
    Columns(u64),
    /// The field of this row and column is not accepted.
    Field(u64, u8),
    /// The moment of this row's record is before that of the record before it.
    TimeFell(u64),
    /// This row's record is about a table that the rules do not name, or that is `const`.
    Table(u64),
    /// There are more than 1,000,000,000 records.
    TooManyRows,
}
