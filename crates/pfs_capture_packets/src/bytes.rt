//! Numbers in the bytes of a frame.

ghost use Rattle.std.specs.Prelude.{◌≡◌, ◌+◌, ◌≤◌, nat_le, length};
ghost use Rattle.pfs_capture_packets.specs.Bytes.{u16_at, u32_at};

/// Whether there are so many bytes from a place on.
pub fn holds(bytes: &[u8], at: usize, count: usize) -> bool
    ensures { result ≡ nat_le (at + count) (length bytes.now) }
{
    count <= bytes.len() && at <= bytes.len() - count
}

/// The number of two bytes, the higher one first.
pub fn read_u16(bytes: &[u8], at: usize) -> u16
    requires { at + 2 ≤ length bytes.now }
    ensures { result ≡ u16_at bytes.now at }
{
    u16::from(bytes[at]) * 256 + u16::from(bytes[at + 1])
}

/// The number of four bytes, the highest one first.
pub fn read_u32(bytes: &[u8], at: usize) -> u32
    requires { at + 4 ≤ length bytes.now }
    ensures { result ≡ u32_at bytes.now at }
{
    u32::from(read_u16(bytes, at)) * 65_536 + u32::from(read_u16(bytes, at + 2))
}
