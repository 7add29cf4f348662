//! The `set limit` values.

ghost use Rattle.std.specs.Prelude.{◌≡◌};
ghost use Rattle.pfs_conf_values.specs.Limits.{limit_value, limits_with};

/// What `set limit` bounds. (pf.conf(5), OPTIONS, "set limit")
#[derive(Debug, Clone, Copy, PartialEq, Eq)]
pub enum LimitName {
    /// The states that are held at a time. 100,000 unless set.
    States,
    /// The source nodes that are held at a time, with or without states. 10,000 unless set.
    SrcNodes,
    /// The tables of a text. 1,000 unless set.
    Tables,
    /// The entries of all tables together. 200,000 unless set.
    TableEntries,
}

/// The four limits, each 1 to 4294967295.
#[derive(Debug, Clone, Copy, PartialEq, Eq, Hash)]
pub struct Limits {
    /// The states that are held at a time.
    pub states: u32,
    /// The source nodes that are held at a time.
    pub src_nodes: u32,
    /// The tables of a text.
    pub tables: u32,
    /// The entries of all tables together.
    pub table_entries: u32,
}

impl Limits {
    /// The limits of a text that sets none. (own to this profile)
    pub const DEFAULT: Limits = Limits {
        states: 100_000,
        src_nodes: 10_000,
        tables: 1_000,
        table_entries: 200_000,
    };

    /// The value of one limit.
    pub fn get(self, name: LimitName) -> u32
        ensures { result ≡ limit_value self name }
    {
        match name {
            LimitName::States => self.states,
            LimitName::SrcNodes => self.src_nodes,
            LimitName::Tables => self.tables,
            LimitName::TableEntries => self.table_entries,
        }
    }

    /// These limits with one of them replaced.
    pub fn with(self, name: LimitName, value: u32) -> Limits
        ensures { result ≡ limits_with self name value }
    {
        match name {
            LimitName::States => Limits {
                states: value,
                ..self
            },
            LimitName::SrcNodes => Limits {
                src_nodes: value,
                ..self
            },
            LimitName::Tables => Limits {
                tables: value,
                ..self
            },
            LimitName::TableEntries => Limits {
                table_entries: value,
                ..self
            },
        }
    }
}
