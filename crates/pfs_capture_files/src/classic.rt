//! The header of a pcap file, and its records.

ghost use Rattle.std.specs.Prelude.{◌≡◌, ◌<◌, ◌≤◌, false, IfErr, IfOk, length};
ghost use Rattle.pfs_capture_files.specs.Faults.{is_outside};
ghost use Rattle.pfs_capture_files.specs.Classic.{kept_in, lengths_of, nanosecond_in, record_frame};
ghost use Rattle.pfs_capture_files.specs.Frames.{IsFrame};

use crate::faults::FileFault;
use crate::frames::{Frame, MOST_OF_FRAME, Moment};
use crate::orders::{Order, read_u32};

/// Which of the two lengths of a record is that of the bytes that were kept.
#[derive(Clone, Copy)]
pub enum LengthOrder {
    /// The first.
    KeptFirst,
    /// The last.
    KeptLast,
    /// The lesser one.
    KeptLess,
}

/// In what a record counts the time that is past its second.
#[derive(Clone, Copy)]
pub enum Precision {
    /// In millionths of a second.
    Microseconds,
    /// In billionths.
    Nanoseconds,
}

/// What the header of a pcap file says of its records.
#[derive(Clone, Copy)]
pub struct FileHeader {
    /// The byte order of their numbers.
    pub order: Order,
    /// In what they count the time that is past their second.
    pub precision: Precision,
    /// Which of their lengths is that of the bytes kept.
    pub lengths: LengthOrder,
    /// The type of their link.
    pub link: u16,
}

/// Which length of a record is that of the bytes kept, in a file of this version. It returns `FileFault::Version` for a
/// version that is not read.
pub fn lengths_of(major: u16, minor: u16) -> Result<LengthOrder, FileFault>
    ensures is { result ≡ lengths_of major minor }
    ensures of_file { IfErr result (λ f. is_outside f ≡ false) }
{
    match (major, minor) {
        (2, 4) => Ok(LengthOrder::KeptFirst),
        (2, 3) => Ok(LengthOrder::KeptLess),
        (2, 0..=2) | (543, 0) => Ok(LengthOrder::KeptLast),
        _ => Err(FileFault::Version),
    }
}

/// The frame that a record's header describes, whose bytes follow it. Its moment is in the second that the header says, also
/// where what is past that is a second or more in a faulty file: then it is the second's last nanosecond. It returns
/// `FileFault::Cut` for a header that is cut, and `FileFault::TooLong` for a frame of more than 262,144 bytes. (pcap, section 5)
pub fn record_frame(header: FileHeader, head: &[u8]) -> Result<Frame, FileFault>
    ensures is { result ≡ record_frame header head.now }
    ensures few { IfOk result (λ f. f.count ≤ 262144) }
    ensures frame { IfOk result IsFrame }
    ensures of_file { IfErr result (λ f. is_outside f ≡ false) }
{
    if head.len() < 16 {
        return Err(FileFault::Cut);
    }
    let count = kept_in(header, head);
    if count > MOST_OF_FRAME {
        return Err(FileFault::TooLong);
    }
    Ok(Frame {
        link: header.link,
        name: None,
        moment: Moment::At {
            second: u64::from(read_u32(header.order, head, 0)),
            nanosecond: nanosecond_in(header, head),
        },
        from: 0,
        count: count as usize,
    })
}

/// How many nanoseconds after its second began the moment of a record is.
fn nanosecond_in(header: FileHeader, head: &[u8]) -> u32
    requires { 16 ≤ length head.now }
    ensures is { result ≡ nanosecond_in header head.now }
    ensures fraction { result < 1000000000 }
{
    let units = u64::from(read_u32(header.order, head, 4));
    let nanoseconds = match header.precision {
        Precision::Microseconds => units * 1_000,
        Precision::Nanoseconds => units,
    };
    nanoseconds.min(999_999_999) as u32
}

/// How many bytes of its frame a record keeps.
fn kept_in(header: FileHeader, head: &[u8]) -> u32
    requires { 16 ≤ length head.now }
    ensures { result ≡ kept_in header head.now }
{
    match header.lengths {
        LengthOrder::KeptFirst => read_u32(header.order, head, 8),
        LengthOrder::KeptLast => read_u32(header.order, head, 12),
        LengthOrder::KeptLess => {
            read_u32(header.order, head, 8).min(read_u32(header.order, head, 12))
        }
    }
}
