//! The kinds of token: a key for each word of the grammar and for each mark.

/// What a token of a rules text is. (pf.conf(5), GRAMMAR)
///
/// Each word that the grammar knows has a key of its own. Where the grammar asks for a name, any word is allowed, a
/// word of the grammar and a number too: see [`Key::is_word`].
#[derive(Clone, Copy, Debug, PartialEq, Eq)]
pub enum Key {
    /// `set`
    Set,
    /// `limit`
    Limit,
    /// `timeout`
    Timeout,
    /// `states`
    States,
    /// `src-nodes`
    SrcNodes,
    /// `tables`
    Tables,
    /// `table-entries`
    TableEntries,
    /// `frags`
    Frags,
    /// `profile`
    Profile,
    /// `openbsd-7.4`
    OpenBsd74,
    /// `syncookies`
    Syncookies,
    /// `never`
    Never,
    /// `always`
    Always,
    /// `adaptive`
    Adaptive,
    /// `start`
    Start,
    /// `end`: the word; the end of the text is [`Key::End`].
    EndWord,
    /// `route`
    Route,
    /// `table`
    Table,
    /// `persist`
    Persist,
    /// `const`
    Const,
    /// `counters`
    Counters,
    /// `pass`
    Pass,
    /// `block`
    Block,
    /// `match`
    Match,
    /// `drop`
    Drop,
    /// `return`
    Return,
    /// `return-rst`
    ReturnRst,
    /// `return-icmp`
    ReturnIcmp,
    /// `return-icmp6`
    ReturnIcmp6,
    /// `in`
    In,
    /// `out`
    Out,
    /// `anchor`
    Anchor,
    /// `inet6`
    Inet6,
    /// `log`
    Log,
    /// `all`
    All,
    /// `matches`
    Matches,
    /// `user`
    User,
    /// `to`
    To,
    /// `quick`
    Quick,
    /// `on`
    On,
    /// `inet`
    Inet,
    /// `proto`
    Proto,
    /// `from`
    From,
    /// `port`
    Port,
    /// `any`
    Any,
    /// `flags`
    Flags,
    /// `tag`
    Tag,
    /// `tagged`
    Tagged,
    /// `received-on`
    ReceivedOn,
    /// `nat-to`
    NatTo,
    /// `static-port`
    StaticPort,
    /// `rdr-to`
    RdrTo,
    /// `no`
    No,
    /// `state`
    State,
    /// `keep`
    Keep,
    /// `synproxy`
    Synproxy,
    /// `max`
    Max,
    /// `source-track`
    SourceTrack,
    /// `rule`
    Rule,
    /// `global`
    Global,
    /// `max-src-nodes`
    MaxSrcNodes,
    /// `max-src-states`
    MaxSrcStates,
    /// `max-src-conn`
    MaxSrcConn,
    /// `max-src-conn-rate`
    MaxSrcConnRate,
    /// `overload`
    Overload,
    /// `flush`
    Flush,
    /// `sloppy`
    Sloppy,
    /// `floating`
    Floating,
    /// `no-sync`
    NoSync,
    /// `frag`
    Frag,
    /// `tcp.tsdiff`
    TcpTsdiff,
    /// `icmp.first`
    IcmpFirst,
    /// `icmp.error`
    IcmpError,
    /// `tcp.first`
    TcpFirst,
    /// `tcp.opening`
    TcpOpening,
    /// `tcp.established`
    TcpEstablished,
    /// `tcp.closing`
    TcpClosing,
    /// `tcp.finwait`
    TcpFinwait,
    /// `tcp.closed`
    TcpClosed,
    /// `udp.first`
    UdpFirst,
    /// `udp.single`
    UdpSingle,
    /// `udp.multiple`
    UdpMultiple,
    /// `other.first`
    OtherFirst,
    /// `other.single`
    OtherSingle,
    /// `other.multiple`
    OtherMultiple,
    /// `src.track`
    SrcTrack,
    /// `interval`
    Interval,
    /// `adaptive.start`
    AdaptiveStart,
    /// `adaptive.end`
    AdaptiveEnd,
    /// `rdomain`
    Rdomain,
    /// `tcp`
    Tcp,
    /// `udp`
    Udp,
    /// `icmp`
    Icmp,
    /// `icmp6`
    Icmp6,
    /// `esp`
    Esp,
    /// `ah`
    Ah,
    /// `gre`
    Gre,
    /// `ssh`
    Ssh,
    /// `smtp`
    Smtp,
    /// `domain`
    Domain,
    /// `www`
    Www,
    /// `http`
    Http,
    /// `https`
    Https,
    /// A word of pf's own language that no statement of this profile has, as `queue` or `binat-to`.
    Foreign,
    /// A word that begins with a digit.
    Number,
    /// Any other word.
    Name,
    /// A quoted string; the text is what is between the quotes.
    Quoted,
    /// `{`
    OpenBrace,
    /// `}`
    CloseBrace,
    /// `(`
    OpenParen,
    /// `)`
    CloseParen,
    /// `<`
    OpenAngle,
    /// `>`
    CloseAngle,
    /// `,`
    Comma,
    /// `!`
    Not,
    /// `=`
    Equals,
    /// The end of a line.
    LineEnd,
    /// The end of the text.
    End,
    /// A byte that nothing accepts: no printable ASCII, a quote that is not closed on its line, or a backslash that is
    /// not directly before a line feed.
    Bad,
}

impl Key {
    ghost use Rattle.std.specs.Prelude.{◌≡◌};
    ghost use Rattle.pfs_conf_tokens.specs.Keys.{is_word_key, is_unsupported_key, timeout_place};

    /// Whether the token is a word: of the grammar, of pf alone, a number, or any other. Where a name is asked for, any
    /// word is allowed. (pf.conf(5), GRAMMAR)
    pub fn is_word(self) -> bool
        ensures { result ≡ is_word_key self }
    {
        match self {
            Key::Quoted
            | Key::OpenBrace
            | Key::CloseBrace
            | Key::OpenParen
            | Key::CloseParen
            | Key::OpenAngle
            | Key::CloseAngle
            | Key::Comma
            | Key::Not
            | Key::Equals
            | Key::LineEnd
            | Key::End
            | Key::Bad => false,
            _ => true,
        }
    }

    /// Whether the token is a word that pf.conf(5) knows and that this profile accepts nowhere as itself, as `queue`, or
    /// not everywhere, as `set`, `user` or `tag`: where it is not accepted, it is reported as unsupported.
    /// (own to this profile)
    pub fn is_unsupported(self) -> bool
        ensures { result ≡ is_unsupported_key self }
    {
        matches!(
            self,
            Key::Foreign
                | Key::Set
                | Key::User
                | Key::Any
                | Key::Rdomain
                | Key::Match
                | Key::Tag
                | Key::Tagged
                | Key::ReceivedOn
                | Key::NatTo
                | Key::RdrTo
        )
    }

    /// The place of a timeout's name among the sixteen that are kept, counted from 0: those of tcp, udp and other
    /// protocols, `src.track`, `interval`, `adaptive.start`, `adaptive.end`. Other words have none.
    /// (pf.conf(5), OPTIONS, "set timeout")
    pub fn timeout_place(self) -> Option<usize>
        ensures { result ≡ timeout_place self }
    {
        match self {
            Key::TcpFirst => Some(0),
            Key::TcpOpening => Some(1),
            Key::TcpEstablished => Some(2),
            Key::TcpClosing => Some(3),
            Key::TcpFinwait => Some(4),
            Key::TcpClosed => Some(5),
            Key::UdpFirst => Some(6),
            Key::UdpSingle => Some(7),
            Key::UdpMultiple => Some(8),
            Key::OtherFirst => Some(9),
            Key::OtherSingle => Some(10),
            Key::OtherMultiple => Some(11),
            Key::SrcTrack => Some(12),
            Key::Interval => Some(13),
            Key::AdaptiveStart => Some(14),
            Key::AdaptiveEnd => Some(15),
            _ => None,
        }
    }
}
