//! Whether SYNs are answered by cookies.

ghost use Rattle.std.specs.Prelude.{◌≡◌};
ghost use Rattle.pfs_conf_values.specs.Syncookies.{are_sent};

/// Whether SYNs of TCP that come in are answered by cookies, so that they hold no state. (pf.conf(5), OPTIONS, "set syncookies")
#[derive(Debug, Clone, Copy, PartialEq, Eq, Hash)]
pub enum Syncookies {
    /// `never`: what a text has that doesn't set it.
    Never,
    /// `always`.
    Always,
    /// `adaptive`: while many connections are half open.
    Adaptive {
        /// Cookies begin above this share, 1 to 100, in percent of the limit on states.
        start: u32,
        /// They end below this share, less than `start`, in percent of the limit on states.
        end: u32,
    },
}

impl Syncookies {
    /// Whether they are ever sent.
    pub fn are_sent(self) -> bool
        ensures { result ≡ are_sent self }
    {
        match self {
            Syncookies::Never => false,
            Syncookies::Always | Syncookies::Adaptive { .. } => true,
        }
    }
}
