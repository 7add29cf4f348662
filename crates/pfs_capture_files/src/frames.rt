//! The frames that items of a file hold, and their moments.

ghost use Rattle.std.specs.Prelude.{◌≡◌, ◌+◌, ◌<◌, ◌≤◌, false, IfErr, IfOk, length};
ghost use Rattle.pfs_capture_files.specs.Faults.{is_outside};
ghost use Rattle.pfs_capture_files.specs.Interfaces.{IsNamed};
ghost use Rattle.pfs_capture_files.specs.Frames.{IsFrame, IsMoment, enhanced_frame, frame_moment, nanoseconds_of, simple_frame, within_range};

use crate::faults::FileFault;
use crate::interfaces::InterfaceBlock;
use crate::orders::{Order, read_u32};
use pfs_addr_values::IfName;

/// The most bytes of a frame.
pub const MOST_OF_FRAME: u32 = 262_144;

/// The last second that a trace can have.
const LAST_SECOND: u64 = 4_294_967_295;

/// When a frame was seen.
#[derive(Clone, Copy)]
pub enum Moment {
    /// In this second since 1970, at most 4294967295, so many whole nanoseconds after it began, at most 999,999,999.
    At {
        /// The second.
        second: u64,
        /// The nanoseconds.
        nanosecond: u32,
    },
    /// Its block does not say.
    Untold,
    /// In none from 0 to 4294967295.
    Outside,
}

/// A frame, and where its bytes are in what was read last.
#[derive(Clone, Copy)]
pub struct Frame {
    /// The type of its link.
    pub link: u16,
    /// The name of its interface, where a block says one that an interface of pf can have.
    pub name: Option<IfName>,
    /// When it was seen.
    pub moment: Moment,
    /// Where it begins in what was read last.
    pub from: usize,
    /// How many bytes it has.
    pub count: usize,
}

/// What is next in a file.
#[derive(Clone, Copy)]
pub enum FileItem {
    /// Its end.
    End,
    /// A block that holds no frame.
    Other,
    /// A frame.
    Frame(Frame),
}

/// The frame of an enhanced packet block, of which this is what follows its interface, without its last length.
pub fn enhanced_frame(
    order: Order,
    interface: &InterfaceBlock,
    body: &[u8],
) -> Result<Frame, FileFault>
    requires { IsNamed interface.now.name }
    ensures is { result ≡ enhanced_frame order interface.now body.now }
    ensures frame { IfOk result IsFrame }
    ensures of_file { IfErr result (λ f. is_outside f ≡ false) }
{
    if body.len() < 16 {
        return Err(FileFault::Block);
    }
    let count = read_u32(order, body, 8);
    if count > MOST_OF_FRAME {
        return Err(FileFault::TooLong);
    }
    let count = count as usize;
    if count > body.len() - 16 {
        return Err(FileFault::Block);
    }
    let high = u64::from(read_u32(order, body, 0));
    let low = u64::from(read_u32(order, body, 4));
    Ok(Frame {
        link: interface.link,
        name: interface.name,
        moment: moment_of(interface, high * 4_294_967_296 + low),
        from: 16,
        count,
    })
}

/// The frame of a simple packet block, of which this is what follows the frame's own length, without the block's last length.
pub fn simple_frame(interface: &InterfaceBlock, told: u32, body: &[u8]) -> Result<Frame, FileFault>
    requires { IsNamed interface.now.name }
    ensures is { result ≡ simple_frame interface.now told body.now }
    ensures frame { IfOk result IsFrame }
    ensures of_file { IfErr result (λ f. is_outside f ≡ false) }
{
    let kept = if interface.kept == 0 {
        told
    } else {
        told.min(interface.kept)
    };
    if kept > MOST_OF_FRAME {
        return Err(FileFault::TooLong);
    }
    let count = kept as usize;
    if count > body.len() {
        return Err(FileFault::Block);
    }
    Ok(Frame {
        link: interface.link,
        name: interface.name,
        moment: Moment::Untold,
        from: 0,
        count,
    })
}

/// A moment that is given in an interface's units, and cut to whole nanoseconds.
fn moment_of(interface: &InterfaceBlock, units: u64) -> Moment
    ensures is { result ≡ frame_moment interface.now units }
    ensures fraction { IsMoment result }
{
    let in_second = interface.units.max(1);
    let second = units / in_second;
    let nanosecond = nanoseconds_of(units % in_second, in_second);
    if interface.offset < 9_223_372_036_854_775_808 {
        if second > LAST_SECOND || interface.offset > LAST_SECOND - second {
            return Moment::Outside;
        }
        return Moment::At {
            second: second + interface.offset,
            nanosecond,
        };
    }
    let back = u64::MAX - interface.offset + 1;
    if second < back || second - back > LAST_SECOND {
        return Moment::Outside;
    }
    Moment::At {
        second: second - back,
        nanosecond,
    }
}

/// How many whole nanoseconds so many units are, of which a second has this number.
#[tactic(auto, using(crate::proofs::Powers::fraction_below))]
fn nanoseconds_of(units: u64, in_second: u64) -> u32
    requires { units < in_second }
    ensures is { result ≡ nanoseconds_of units in_second }
    ensures fraction { result < 1000000000 }
{
    let nanoseconds = u128::from(units) * 1_000_000_000 / u128::from(in_second);
    nanoseconds as u32
}
