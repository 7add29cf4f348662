//! What the header of a log of packets says beside the packet.

ghost use Rattle.std.specs.Prelude.{◌≡◌, ◌==◌, ◌<◌, ◌≤◌, IfSome, length, position, true};
ghost use Rattle.pfs_addr_values.specs.Names.{is_name};
ghost use Rattle.pfs_capture_packets.specs.Logs.{anchor_name, answer_in, is_log, logged_answer, logged_dir_at, logged_of, name_at, rewritten_in, text_length};

use crate::bytes::{holds, read_u32};
use crate::links::Link;
use pfs_addr_values::{Dir, IfName, parse_ifname};

/// The least bytes of a log's header, up to the direction. What fills them up to a word is not counted.
pub const LOG_HEADER: usize = 61;

/// What pf says of a packet that it logged. (pflog(4))
#[derive(Clone, Copy)]
pub struct Logged {
    /// Whether the packet came in or went out.
    pub dir: Dir,
    /// The name of its interface.
    pub ifname: IfName,
}

/// What pf did with a packet that it logged, and by which rule. (pflog(4))
#[derive(Clone, Copy)]
pub struct LoggedAnswer {
    /// The number of the action: 0 passes the packet, 1 blocks it.
    pub action: u8,
    /// The number of the rule in the main ruleset, from 0; of a rule in an anchor, that of the anchor. 4294967295 where there is none.
    pub rule: u32,
    /// The name of the anchor whose rule it is, filled up with zeros; none for a rule of the main ruleset.
    pub anchor: [u8; 16],
    /// The number of the rule in its anchor, from 0; 4294967295 for a rule of the main ruleset.
    pub subrule: u32,
    /// The number of the reason: 0 a rule that matches, 12 the state limit, and so on.
    pub reason: u8,
    /// Whether the packet was translated; `None` where the header does not say.
    pub rewritten: Option<bool>,
}

impl LoggedAnswer {
    /// The name of the anchor whose rule it is, which is empty for a rule of the main ruleset.
    pub fn anchor_name(&self) -> &[u8]
        ensures { result.now ≡ anchor_name self.now }
    {
        &self.anchor[..text_length(&self.anchor)]
    }
}

/// Whether the frames of a link are those of a log of pflog(4).
pub fn is_log(link: Link) -> bool
    ensures { result ≡ is_log link }
{
    matches!(link, Link::Log)
}

/// What the header of pflog(4) says of its packet, or `None` where the frame ends within it, where its direction is neither
/// in nor out, and where the name of its interface is none that a trace can have.
pub fn read_log(frame: &[u8]) -> Option<Logged>
    ensures is { result ≡ logged_of frame.now }
    ensures name { IfSome result (λ l. is_name 15 l.ifname ≡ true) }
{
    if !holds(frame, 0, LOG_HEADER) {
        return None;
    }
    let dir = dir_at(frame[60])?;
    let ifname = name_at(&frame[4..20])?;
    Some(Logged { dir, ifname })
}

/// What pf answered for the packet of a frame of this link, or `None` where the link is no log of pflog(4) and where the frame ends
/// within the header of one.
pub fn read_answer(link: Link, frame: &[u8]) -> Option<LoggedAnswer>
    ensures { result ≡ answer_in link frame.now }
{
    if !is_log(link) {
        return None;
    }
    logged_answer(frame)
}

fn logged_answer(frame: &[u8]) -> Option<LoggedAnswer>
    ensures { result ≡ logged_answer frame.now }
{
    if !holds(frame, 0, LOG_HEADER) {
        return None;
    }
    let mut anchor = [0; 16];
    anchor.copy_from_slice(&frame[20..36]);
    Some(LoggedAnswer {
        action: frame[2],
        rule: read_u32(frame, 36),
        anchor,
        subrule: read_u32(frame, 40),
        reason: frame[3],
        rewritten: rewritten_in(frame),
    })
}

/// Whether the packet was translated, in a header that is long enough to say it.
fn rewritten_in(frame: &[u8]) -> Option<bool>
    ensures { result ≡ rewritten_in frame.now }
{
    if !holds(frame, 0, 62) || frame[0] < 62 {
        return None;
    }
    Some(frame[61] != 0)
}

fn dir_at(byte: u8) -> Option<Dir>
    ensures { result ≡ logged_dir_at byte }
{
    match byte {
        1 => Some(Dir::In),
        2 => Some(Dir::Out),
        _ => None,
    }
}

/// The name that a field says, if it is one that an interface of pf can have. Zeros may fill the field up.
pub fn name_at(field: &[u8]) -> Option<IfName>
    ensures is { result ≡ name_at field.now }
    ensures name { IfSome result (λ n. is_name 15 n ≡ true) }
{
    parse_ifname(&field[..text_length(field)])
}

/// How many bytes a text has that ends before the first zero.
fn text_length(field: &[u8]) -> usize
    ensures is { result ≡ text_length field.now }
    ensures within { result ≤ length field.now }
{
    match first_zero(field) {
        Some(length) => length,
        None => field.len(),
    }
}

fn first_zero(field: &[u8]) -> Option<usize>
    ensures is { result ≡ position (λ b. b == 0) field.now }
    ensures within { IfSome result (λ n. n < length field.now) }
{
    field.iter().position(|byte| *byte == 0)
}
