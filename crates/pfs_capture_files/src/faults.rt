//! What is wrong with a capture file.

ghost use Rattle.std.specs.Prelude.{◌≡◌};

/// Why the frames of a file end before it does.
#[derive(Clone, Copy, Debug)]
pub enum FileFault {
    /// The file is empty.
    Empty,
    /// The file is packed by gzip.
    Gzip,
    /// The file begins as no capture does.
    NotCapture,
    /// The file, or a section of it, is of a version that is not read.
    Version,
    /// The file ends in a frame, or in a block.
    Cut,
    /// A frame is of more than 262,144 bytes, or a block of more than 524,288.
    TooLong,
    /// A block is shorter than it says, or names an interface that is not there.
    Block,
    /// A section has more than 1,024 interfaces.
    Interfaces,
    /// The moments of an interface are finer than a second can be cut into 2^64 parts.
    Resolution,
    /// A read failed, or all reads of its bound are made.
    Read,
    /// Memory was refused.
    Memory,
}
