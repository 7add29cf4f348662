//! What the tests of several crates share: packets, cases with what must come of them, and how two values are compared. It has no
//! tests of its own.

#![tactic(auto)]

mod cases;
mod conditions;
mod errors;
mod outcomes;
mod packets;
mod rows;
mod scripts;
mod texts;

pub use crate::cases::{
    FLOOD, FLUSH, FLUSH_GLOBAL, NOT_REMOVED, REMOVED, RETENTION, SCENARIO_COUNT, SECOND_CONNECTION,
    THIRD_STATE, scenario,
};
pub use crate::conditions::{are_allowed, is_in_order, is_in_time, may_change, may_come};
pub use crate::errors::CaseError;
pub use crate::outcomes::outcome_of;
pub use crate::packets::{
    A1, A2, ACK, FIN_ACK, NONE, RST, S6, SERVER, SERVER6, SYN, SYN_ACK, Sent, between, packet,
};
pub use crate::rows::{Case, CaseRow, RowEvent};
pub use crate::scripts::{Script, entry, hosts};
pub use crate::texts::{ANCHORED, EVERYTHING, HEADER, SHOWN, UNSCALED, configured};

/// Two values are the same; a third is shown where they are not. The crate that calls it has a function `checks::same`.
#[macro_export]
macro_rules! same {
    ($rt:expr; $told:expr, $wanted:expr) => {
        crate::checks::same(&$rt, stringify!($told), &$told, &$wanted, &"")
    };
    ($rt:expr; $told:expr, $wanted:expr, $at:expr) => {
        crate::checks::same(&$rt, stringify!($told), &$told, &$wanted, &$at)
    };
}

/// Something holds; a value is shown where it does not. The crate that calls it has a function `checks::same`.
#[macro_export]
macro_rules! holds {
    ($rt:expr; $is_so:expr) => {
        crate::checks::same(&$rt, stringify!($is_so), &$is_so, &true, &"")
    };
    ($rt:expr; $is_so:expr, $at:expr) => {
        crate::checks::same(&$rt, stringify!($is_so), &$is_so, &true, &$at)
    };
}
