//! Which word has which key.

ghost use Rattle.std.specs.Prelude.{◌≡◌, map};
ghost use Rattle.std.specs.Map.{lookup};
ghost use Rattle.std.specs.Str.{bytes_eq};
ghost use Rattle.pfs_conf_tokens.specs.WordLengths.{words_of_length};
ghost use Rattle.pfs_conf_tokens.specs.Words.{key_of_text, starts_with_digit};

use crate::keys::Key;

/// The key of a word of a rules text, which is given without the bytes around it: `Number` if it begins with a digit,
/// the word's own key if the grammar has it, `Foreign` if only pf has it, and else `Name`. (pf.conf(5), GRAMMAR)
pub fn key_of(word: &[u8]) -> Key
    ensures { result ≡ key_of_text word.now }
{
    if starts_with_digit(word) {
        return Key::Number;
    }
    match find_word(words_of_length(word.len()), word) {
        Some(key) => key,
        None => Key::Name,
    }
}

fn starts_with_digit(word: &[u8]) -> bool
    ensures { result ≡ starts_with_digit word.now }
{
    match word {
        [first, ..] => first.is_ascii_digit(),
        [] => false,
    }
}

/// The key of the word in a table of words, if the table has it.
fn find_word(words: &[(&'static [u8], Key)], word: &[u8]) -> Option<Key>
    ensures { result ≡ lookup (bytes_eq word.now) (map (λ e. (e.0.now, e.1)) words.now) }
{
    for (text, key) in words {
        if word == *text {
            return Some(*key);
        }
    }
    None
}

/// The words of a length, of which there are twenty-three at most: a word is compared with these alone.
fn words_of_length(length: usize) -> &'static [(&'static [u8], Key)]
    ensures { map (λ e. (e.0.now, e.1)) result.now ≡ words_of_length length }
{
    match length {
        2 => &TWO,
        3 => &THREE,
        4 => &FOUR,
        5 => &FIVE,
        6 => &SIX,
        7 => &SEVEN,
        8 => &EIGHT,
        9 => &NINE,
        10 => &TEN,
        11 => &ELEVEN,
        12 => &TWELVE,
        13 => &THIRTEEN,
        14 => &FOURTEEN,
        15 => &FIFTEEN,
        17 => &SEVENTEEN,
        _ => &[],
    }
}

static TWO: [(&[u8], Key); 6] = [
    (b"in", Key::In),
    (b"on", Key::On),
    (b"to", Key::To),
    (b"no", Key::No),
    (b"ah", Key::Ah),
    (b"os", Key::Foreign),
];

static THREE: [(&[u8], Key); 15] = [
    (b"out", Key::Out),
    (b"any", Key::Any),
    (b"all", Key::All),
    (b"log", Key::Log),
    (b"set", Key::Set),
    (b"end", Key::EndWord),
    (b"tag", Key::Tag),
    (b"max", Key::Max),
    (b"tcp", Key::Tcp),
    (b"udp", Key::Udp),
    (b"esp", Key::Esp),
    (b"gre", Key::Gre),
    (b"ssh", Key::Ssh),
    (b"www", Key::Www),
    (b"tos", Key::Foreign),
];

static FOUR: [(&[u8], Key); 16] = [
    (b"pass", Key::Pass),
    (b"inet", Key::Inet),
    (b"from", Key::From),
    (b"port", Key::Port),
    (b"drop", Key::Drop),
    (b"user", Key::User),
    (b"keep", Key::Keep),
    (b"rule", Key::Rule),
    (b"frag", Key::Frag),
    (b"icmp", Key::Icmp),
    (b"smtp", Key::Smtp),
    (b"http", Key::Http),
    (b"load", Key::Foreign),
    (b"prio", Key::Foreign),
    (b"once", Key::Foreign),
    (b"file", Key::Foreign),
];

static FIVE: [(&[u8], Key); 23] = [
    (b"block", Key::Block),
    (b"quick", Key::Quick),
    (b"inet6", Key::Inet6),
    (b"proto", Key::Proto),
    (b"flags", Key::Flags),
    (b"limit", Key::Limit),
    (b"frags", Key::Frags),
    (b"table", Key::Table),
    (b"const", Key::Const),
    (b"never", Key::Never),
    (b"start", Key::Start),
    (b"route", Key::Route),
    (b"match", Key::Match),
    (b"state", Key::State),
    (b"flush", Key::Flush),
    (b"icmp6", Key::Icmp6),
    (b"https", Key::Https),
    (b"queue", Key::Foreign),
    (b"group", Key::Foreign),
    (b"label", Key::Foreign),
    (b"af-to", Key::Foreign),
    (b"scrub", Key::Foreign),
    (b"pflow", Key::Foreign),
];

static SIX: [(&[u8], Key); 13] = [
    (b"states", Key::States),
    (b"tables", Key::Tables),
    (b"return", Key::Return),
    (b"anchor", Key::Anchor),
    (b"always", Key::Always),
    (b"tagged", Key::Tagged),
    (b"nat-to", Key::NatTo),
    (b"rdr-to", Key::RdrTo),
    (b"global", Key::Global),
    (b"sloppy", Key::Sloppy),
    (b"domain", Key::Domain),
    (b"rtable", Key::Foreign),
    (b"dup-to", Key::Foreign),
];

static SEVEN: [(&[u8], Key); 7] = [
    (b"rdomain", Key::Rdomain),
    (b"timeout", Key::Timeout),
    (b"persist", Key::Persist),
    (b"matches", Key::Matches),
    (b"profile", Key::Profile),
    (b"no-sync", Key::NoSync),
    (b"include", Key::Foreign),
];

static EIGHT: [(&[u8], Key); 12] = [
    (b"counters", Key::Counters),
    (b"adaptive", Key::Adaptive),
    (b"synproxy", Key::Synproxy),
    (b"overload", Key::Overload),
    (b"floating", Key::Floating),
    (b"interval", Key::Interval),
    (b"binat-to", Key::Foreign),
    (b"route-to", Key::Foreign),
    (b"reply-to", Key::Foreign),
    (b"fragment", Key::Foreign),
    (b"modulate", Key::Foreign),
    (b"if-bound", Key::Foreign),
];

static NINE: [(&[u8], Key); 8] = [
    (b"src-nodes", Key::SrcNodes),
    (b"tcp.first", Key::TcpFirst),
    (b"udp.first", Key::UdpFirst),
    (b"src.track", Key::SrcTrack),
    (b"antispoof", Key::Foreign),
    (b"icmp-type", Key::Foreign),
    (b"divert-to", Key::Foreign),
    (b"fragments", Key::Foreign),
];

static TEN: [(&[u8], Key); 9] = [
    (b"return-rst", Key::ReturnRst),
    (b"syncookies", Key::Syncookies),
    (b"tcp.tsdiff", Key::TcpTsdiff),
    (b"icmp.first", Key::IcmpFirst),
    (b"icmp.error", Key::IcmpError),
    (b"tcp.closed", Key::TcpClosed),
    (b"udp.single", Key::UdpSingle),
    (b"icmp6-type", Key::Foreign),
    (b"allow-opts", Key::Foreign),
];

static ELEVEN: [(&[u8], Key); 9] = [
    (b"return-icmp", Key::ReturnIcmp),
    (b"openbsd-7.4", Key::OpenBsd74),
    (b"received-on", Key::ReceivedOn),
    (b"static-port", Key::StaticPort),
    (b"tcp.opening", Key::TcpOpening),
    (b"tcp.closing", Key::TcpClosing),
    (b"tcp.finwait", Key::TcpFinwait),
    (b"other.first", Key::OtherFirst),
    (b"probability", Key::Foreign),
];

static TWELVE: [(&[u8], Key); 8] = [
    (b"return-icmp6", Key::ReturnIcmp6),
    (b"source-track", Key::SourceTrack),
    (b"max-src-conn", Key::MaxSrcConn),
    (b"udp.multiple", Key::UdpMultiple),
    (b"other.single", Key::OtherSingle),
    (b"adaptive.end", Key::AdaptiveEnd),
    (b"divert-reply", Key::Foreign),
    (b"initializers", Key::Foreign),
];

static THIRTEEN: [(&[u8], Key); 3] = [
    (b"table-entries", Key::TableEntries),
    (b"max-src-nodes", Key::MaxSrcNodes),
    (b"divert-packet", Key::Foreign),
];

static FOURTEEN: [(&[u8], Key); 3] = [
    (b"max-src-states", Key::MaxSrcStates),
    (b"other.multiple", Key::OtherMultiple),
    (b"adaptive.start", Key::AdaptiveStart),
];

static FIFTEEN: [(&[u8], Key); 1] = [(b"tcp.established", Key::TcpEstablished)];

static SEVENTEEN: [(&[u8], Key); 1] = [(b"max-src-conn-rate", Key::MaxSrcConnRate)];
