//! Why a text is refused: what was wanted at the token where reading stops, or the load rule that a statement breaks.

use std::alloc::{AllocError, AllocFailed};

/// What was wanted where reading stops. Together with the token there it decides the kind of the fault.
/// (own to this profile)
#[derive(Clone, Copy, Debug, PartialEq, Eq)]
pub enum Why {
    /// Nothing of the following.
    Plain,
    /// The token begins a clause, a part or an option that the statement has already, names a table or an anchor that
    /// is defined already, or is an entry that the table has already with the other sign.
    Again,
    /// A number, or a rate, which is two numbers.
    Number,
    /// A port or a protocol.
    Service,
    /// A host, an entry of a table, or the prefix of a route.
    Host,
    /// The word after `set`.
    Setting,
    /// The first token of a statement.
    Statement,
    /// A statement that is allowed in the body of an anchor.
    Inner,
    /// The name of an anchor.
    AnchorName,
    /// What goes on the head of an anchor, up to its brace.
    AnchorHead,
}

/// A load rule that a statement breaks, or the text as a whole. (own to this profile)
#[derive(Clone, Copy, Debug, PartialEq, Eq)]
pub enum LoadRule {
    /// A port without `proto tcp` or `proto udp` in the same statement.
    PortWithoutProto,
    /// `keep state` on a block rule.
    StateOnBlock,
    /// `overload` without `max-src-conn` and without `max-src-conn-rate`.
    OverloadAlone,
    /// `source-track global` with `max-src-conn` or `max-src-conn-rate`.
    GlobalConn,
    /// `src.track` in a rule whose sources are tracked globally.
    GlobalRetention,
    /// One adaptive value without the other, or a start that is not below its end.
    AdaptivePair,
    /// `nat-to` or `rdr-to` in a rule without `in` and without `out`.
    TranslationWithoutWay,
    /// An address of `nat-to` or `rdr-to` of another family than the rule, its hosts, or its other translation.
    TranslationFamily,
    /// Shares of `set syncookies adaptive` of which the end is not below the start.
    CookiePair,
    /// An anchor inside 16 others.
    TooDeep,
    /// More rules and anchors than 10,000.
    TooManyRules,
    /// A table that `overload` names is constant.
    ConstOverload,
    /// More tables than `set limit tables`.
    TooManyTables,
    /// What needs the profile of OpenBSD 7.4, as `synproxy state`, `match`, `nat-to`, `set syncookies` and `set route`, in a text without
    /// it.
    NeedsProfile,
    /// More entries in all tables than `set limit table-entries`.
    TooManyEntries,
}

/// Why a reader refuses.
#[derive(Clone, Copy, Debug, PartialEq, Eq)]
pub enum Refusal {
    /// No accepted statement continues with the token at the cursor.
    Stop(Why),
    /// A load rule is broken, by the line of the statement's first token (0: by the text as a whole).
    Broken(LoadRule, u64),
}

/// Why a reader that takes memory gives nothing.
#[derive(Debug, Drop)]
pub enum ReadError {
    /// Memory was refused.
    Memory,
    /// The text is refused.
    Refused(Refusal),
}

impl From<Refusal> for ReadError {
    ghost use Rattle.std.specs.Prelude.{◌≡◌};
    ghost use Rattle.pfs_conf_tokens.specs.declared.refusals.ReadError.TheVariants.{Refused};

    ghost from_gives = { λ r e. e ≡ Refused r };

    fn from(refusal: Refusal) -> ReadError {
        ReadError::Refused(refusal)
    }
}

impl From<AllocError> for ReadError {
    ghost use Rattle.std.specs.Prelude.{◌≡◌};
    ghost use Rattle.pfs_conf_tokens.specs.declared.refusals.ReadError.TheVariants.{Memory};

    ghost from_gives = { λ _ e. e ≡ Memory };

    fn from(_refused: AllocError) -> ReadError {
        ReadError::Memory
    }
}

impl<T: Drop> From<AllocFailed<T>> for ReadError {
    ghost use Rattle.std.specs.Prelude.{◌≡◌};
    ghost use Rattle.pfs_conf_tokens.specs.declared.refusals.ReadError.TheVariants.{Memory};

    ghost from_gives = { λ _ e. e ≡ Memory };

    fn from(_refused: AllocFailed<T>) -> ReadError {
        ReadError::from(AllocError)
    }
}
