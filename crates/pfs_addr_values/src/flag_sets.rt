//! Sets of TCP flags.

/// A set of TCP flags, each by its letter. (pf.conf(5), PARAMETERS, "flags"; RFC 9293, section 3.1)
#[derive(Debug, Clone, Copy, PartialEq, Eq, Hash, Default)]
pub struct Flags {
    /// `F`: the sender has no more to send.
    pub fin: bool,
    /// `S`: the sequence numbers begin.
    pub syn: bool,
    /// `R`: the connection is reset.
    pub rst: bool,
    /// `P`: push.
    pub psh: bool,
    /// `A`: the acknowledgement counts.
    pub ack: bool,
    /// `U`: the urgent pointer counts.
    pub urg: bool,
    /// `E`: congestion was seen. (RFC 3168)
    pub ece: bool,
    /// `W`: the congestion window was reduced. (RFC 3168)
    pub cwr: bool,
}
