//! How what is held ages: the phase of a connection, how long a state may stay quiet, and the score of a source's handshakes.
#![tactic(auto)]

mod datagrams;
mod lifetimes;
mod protocols;
mod proxies;
mod scores;
mod state_phases;
mod tcp_phases;
mod tcp_ranks;

pub use datagrams::DatagramPhase;
pub use lifetimes::{is_expired, lifetime};
pub use protocols::{FullTcp, Other, Phases, Tcp, Udp};
pub use proxies::ProxyPhase;
pub use scores::Score;
pub use state_phases::StatePhase;
pub use tcp_phases::TcpPhase;
