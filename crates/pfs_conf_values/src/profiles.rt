//! Whose machine a rules text asks for.

ghost use Rattle.std.specs.Prelude.{◌≡◌};
ghost use Rattle.pfs_conf_values.specs.Profiles.{is_openbsd};

/// Whose machine a rules text asks for.
#[derive(Debug, Clone, Copy, PartialEq, Eq, Hash)]
pub enum Profile {
    /// That of a text without `set profile`: own to this program.
    Own,
    /// `set profile openbsd-7.4`: what pf of OpenBSD 7.4 does otherwise. (remembered of its kernel and of pfctl)
    OpenBsd74,
}

impl Profile {
    /// Whether it is that of OpenBSD 7.4.
    pub fn is_openbsd(self) -> bool
        ensures { result ≡ is_openbsd self }
    {
        match self {
            Profile::Own => false,
            Profile::OpenBsd74 => true,
        }
    }
}
