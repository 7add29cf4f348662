//! The kinds of faults of a rules text.

ghost use Rattle.std.specs.Prelude.{◌≡◌, Some};
ghost use Rattle.pfs_conf.specs.Kinds.{kind_of_rule};
ghost use Rattle.pfs_conf.specs.KindNames.{kind_name};

use pfs_conf_tokens::LoadRule;
use std::fmt;

/// What is wrong with a rules text. Its `Display` is the kind's name. (own to this profile)
#[derive(Clone, Copy, Debug, PartialEq, Eq)]
pub enum Kind {
    /// No statement continues with this token, and none of the following kinds says more of it.
    Syntax,
    /// The token is one of pf.conf(5)'s that this profile leaves out.
    Unsupported,
    /// A number, a rate, a port or a protocol is wanted, and the token is a word that begins with a digit.
    Number,
    /// The token begins a clause, a part or an option that the statement has already, names a table or an anchor that
    /// is defined already, or is an entry that the table has already with the other sign.
    Duplicate,
    /// `source-track global` with `max-src-conn` or `max-src-conn-rate`.
    GlobalConn,
    /// `src.track` in a rule whose sources are tracked globally.
    GlobalRetention,
    /// `overload` without `max-src-conn` and without `max-src-conn-rate`.
    OverloadAlone,
    /// One adaptive value without the other, or a start that is not below its end.
    AdaptivePair,
    /// `nat-to` or `rdr-to` in a rule without `in` and without `out`.
    TranslationWithoutWay,
    /// An address of `nat-to` or `rdr-to` of another family than the rule, its hosts, or its other translation.
    TranslationFamily,
    /// Shares of `set syncookies adaptive` of which the end is not below the start.
    CookiePair,
    /// A port without `proto tcp` or `proto udp` in the same statement.
    PortWithoutProto,
    /// A table that `overload` names is `const`.
    ConstOverload,
    /// `keep state` on a block rule.
    StateOnBlock,
    /// An anchor inside 16 others.
    TooDeep,
    /// More rules and anchors than 10,000.
    TooManyRules,
    /// More tables than `set limit tables`.
    TooManyTables,
    /// `set syncookies` other than `never`, `set route`, `synproxy state`, `match`, or one of `tag`, `tagged`, `received-on`, `nat-to` and
    /// `rdr-to`, in a text without the profile of OpenBSD 7.4.
    NeedsProfile,
    /// More entries in all tables than `set limit table-entries`.
    TooManyEntries,
    /// More than 1,048,576 bytes.
    TooLong,
    /// Memory was refused.
    Memory,
}

impl Kind {
    /// The kind's name, as it is printed.
    pub fn name(self) -> &'static str
        ensures { result.now ≡ kind_name self }
    {
        match self {
            Kind::Syntax => "Syntax",
            Kind::Unsupported => "Unsupported",
            Kind::Number => "Number",
            Kind::Duplicate => "Duplicate",
            Kind::GlobalConn => "GlobalConn",
            Kind::GlobalRetention => "GlobalRetention",
            Kind::OverloadAlone => "OverloadAlone",
            Kind::AdaptivePair => "AdaptivePair",
            Kind::TranslationWithoutWay => "TranslationWithoutWay",
            Kind::TranslationFamily => "TranslationFamily",
            Kind::CookiePair => "CookiePair",
            Kind::PortWithoutProto => "PortWithoutProto",
            Kind::ConstOverload => "ConstOverload",
            Kind::StateOnBlock => "StateOnBlock",
            Kind::TooDeep => "TooDeep",
            Kind::TooManyRules => "TooManyRules",
            Kind::TooManyTables => "TooManyTables",
            Kind::NeedsProfile => "NeedsProfile",
            Kind::TooManyEntries => "TooManyEntries",
            Kind::TooLong => "TooLong",
            Kind::Memory => "Memory",
        }
    }

    /// The kind of a fault at which this load rule is broken.
    pub(crate) fn of_rule(rule: LoadRule) -> Kind
        ensures { result ≡ kind_of_rule rule }
    {
        match rule {
            LoadRule::PortWithoutProto => Kind::PortWithoutProto,
            LoadRule::StateOnBlock => Kind::StateOnBlock,
            LoadRule::OverloadAlone => Kind::OverloadAlone,
            LoadRule::GlobalConn => Kind::GlobalConn,
            LoadRule::GlobalRetention => Kind::GlobalRetention,
            LoadRule::AdaptivePair => Kind::AdaptivePair,
            LoadRule::TranslationWithoutWay => Kind::TranslationWithoutWay,
            LoadRule::TranslationFamily => Kind::TranslationFamily,
            LoadRule::CookiePair => Kind::CookiePair,
            LoadRule::TooDeep => Kind::TooDeep,
            LoadRule::TooManyRules => Kind::TooManyRules,
            LoadRule::ConstOverload => Kind::ConstOverload,
            LoadRule::TooManyTables => Kind::TooManyTables,
            LoadRule::NeedsProfile => Kind::NeedsProfile,
            LoadRule::TooManyEntries => Kind::TooManyEntries,
        }
    }
}

impl fmt::Display for Kind {
    ghost output = { λ kind. Some (kind_name kind) };

    fn fmt<W: fmt::Write>(&self, f: &mut fmt::Formatter<W>) -> fmt::Result {
        let name = self.name();
        write!(f, "{name}")
    }
}
