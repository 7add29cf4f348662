//! The columns of a trace.

ghost use Rattle.std.specs.Prelude.{◌≡◌, ◌≤◌};
ghost use Rattle.csv.specs.Records.{fields_of};
ghost use Rattle.pfs_trace.specs.Columns.{column_of, is_header};

use csv::ByteRecord;

/// The first row of a trace, which names its columns.
pub const HEADER: &[u8] = b"time,dir,if,proto,src,sport,dst,dport,flags\n";

/// Whether a record is the header that a trace begins with. It takes no memory.
pub fn has_columns(fields: &ByteRecord) -> bool
    ensures { result ≡ is_header (fields_of fields.now) }
{
    fields.len() == 9
        && column(fields, 1) == b"time".as_slice()
        && column(fields, 2) == b"dir".as_slice()
        && column(fields, 3) == b"if".as_slice()
        && column(fields, 4) == b"proto".as_slice()
        && column(fields, 5) == b"src".as_slice()
        && column(fields, 6) == b"sport".as_slice()
        && column(fields, 7) == b"dst".as_slice()
        && column(fields, 8) == b"dport".as_slice()
        && column(fields, 9) == b"flags".as_slice()
}

/// The field of a column, which count from 1.
pub fn column(fields: &ByteRecord, number: usize) -> &[u8]
    requires { 1 ≤ number }
    ensures { result.now ≡ column_of (fields_of fields.now) number }
{
    fields.get(number - 1).unwrap_or(b"")
}
