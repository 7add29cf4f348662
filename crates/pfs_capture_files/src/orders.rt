//! Numbers of both byte orders.

ghost use Rattle.std.specs.Prelude.{◌≡◌, ◌+◌, ◌≤◌, length};
ghost use Rattle.pfs_capture_files.specs.Orders.{highest_first, u16_in, u32_in, u64_in};

/// In which order the bytes of a number are written.
#[derive(Clone, Copy)]
pub enum Order {
    /// The highest first.
    Big,
    /// The lowest first.
    Little,
}

impl Order {
    /// The halves of a number, the higher one first, of which these are written one after the other.
    fn highest_first<T>(self, first: T, second: T) -> (T, T)
        ensures { result ≡ highest_first self first second }
    {
        match self {
            Order::Big => (first, second),
            Order::Little => (second, first),
        }
    }
}

/// The number that the two bytes at a place make in this order.
pub fn read_u16(order: Order, bytes: &[u8], at: usize) -> u16
    requires { at + 2 ≤ length bytes.now }
    ensures { result ≡ u16_in order bytes.now at }
{
    let (high, low) = order.highest_first(bytes[at], bytes[at + 1]);
    u16::from(high) * 256 + u16::from(low)
}

/// The number that the four bytes at a place make in this order.
pub fn read_u32(order: Order, bytes: &[u8], at: usize) -> u32
    requires { at + 4 ≤ length bytes.now }
    ensures { result ≡ u32_in order bytes.now at }
{
    let (high, low) = order.highest_first(
        read_u16(order, bytes, at),
        read_u16(order, bytes, at + 2),
    );
    u32::from(high) * 65_536 + u32::from(low)
}

/// The number of eight bytes.
pub fn read_u64(order: Order, bytes: &[u8], at: usize) -> u64
    requires { at + 8 ≤ length bytes.now }
    ensures { result ≡ u64_in order bytes.now at }
{
    let (high, low) = order.highest_first(
        read_u32(order, bytes, at),
        read_u32(order, bytes, at + 4),
    );
    u64::from(high) * 4_294_967_296 + u64::from(low)
}
