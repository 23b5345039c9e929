//! The table of the parameters for the host.

ghost use Rattle.std.specs.Prelude.{◌≡◌, map};
ghost use Rattle.sy_host_parameters.specs.HostParameters as spec;
ghost use Rattle.sy_host_parameters.specs.internal.Views as view;

/// A parameter for the host.
#[derive(Clone, Copy, PartialEq, Eq)]
pub enum HostParameter {
    /// Whether what is written is on the disk before it counts as taken.
    Sync,
    /// The mode of a file that is made.
    FileCreateMode,
    /// The number of its owner.
    FileOwnerNum,
    /// The number of its group.
    FileGroupNum,
    /// Whether folders of a file are made that aren't there.
    CreateDirs,
    /// Whether what isn't a regular file is written to.
    FileType,
    /// Whether control characters of a message are escaped.
    EscapeControlCharacters,
    /// The name of its owner.
    FileOwner,
    /// The name of its group.
    FileGroup,
    /// The most connections at a time.
    MaxSessions,
    /// Whether a silent peer is asked whether it is still there.
    KeepAlive,
    /// After how many seconds it is asked.
    KeepAliveTime,
    /// After how many seconds it is asked again.
    KeepAliveInterval,
    /// How often it is asked.
    KeepAliveProbes,
}

impl HostParameter {
    /// A number of its own.
    pub fn number(self) -> u8
        ensures { result ≡ spec.number self }
    {
        match self {
            HostParameter::Sync => 0,
            HostParameter::FileCreateMode => 1,
            HostParameter::CreateDirs => 2,
            HostParameter::FileType => 3,
            HostParameter::MaxSessions => 4,
            HostParameter::KeepAlive => 5,
            HostParameter::KeepAliveTime => 6,
            HostParameter::KeepAliveInterval => 7,
            HostParameter::KeepAliveProbes => 8,
            HostParameter::FileOwnerNum => 9,
            HostParameter::FileGroupNum => 10,
            HostParameter::EscapeControlCharacters => 11,
            HostParameter::FileOwner => 12,
            HostParameter::FileGroup => 13,
        }
    }
}

/// What takes parameters for the host.
#[derive(Clone, Copy)]
pub enum Holder {
    /// An action of type `omfile`.
    Archive,
    /// An input, or the module `imtcp`.
    Receiver,
    /// Any other object or statement, which takes none.
    Other,
}

/// Which values a parameter takes.
#[derive(Clone, Copy)]
pub enum Values {
    /// `on` or `off`
    Switch,
    /// A decimal number from the first to the second.
    Number(u64, u64),
    /// Four octal digits, of which the first is 0.
    Mode,
    /// `any` or `regular`
    Kind,
    /// The name of an account.
    Name,
}

/// A parameter, by the name that the manual gives it.
#[derive(Clone, Copy)]
pub struct HostRow {
    pub name: &'static [u8],
    pub parameter: HostParameter,
    pub values: Values,
}

/// The most seconds, probes and connections.
const MOST: u64 = 32_767;

const SESSIONS: u64 = 1_000_000;

/// The greatest number of an owner or a group: the one above it stands for none (POSIX, chown).
pub const MOST_ID: u64 = 4_294_967_294;

static OF_ARCHIVES: [HostRow; 9] = [
    HostRow {
        name: b"sync",
        parameter: HostParameter::Sync,
        values: Values::Switch,
    },
    HostRow {
        name: b"fileCreateMode",
        parameter: HostParameter::FileCreateMode,
        values: Values::Mode,
    },
    HostRow {
        name: b"fileOwner",
        parameter: HostParameter::FileOwner,
        values: Values::Name,
    },
    HostRow {
        name: b"fileGroup",
        parameter: HostParameter::FileGroup,
        values: Values::Name,
    },
    HostRow {
        name: b"fileOwnerNum",
        parameter: HostParameter::FileOwnerNum,
        values: Values::Number(0, MOST_ID),
    },
    HostRow {
        name: b"fileGroupNum",
        parameter: HostParameter::FileGroupNum,
        values: Values::Number(0, MOST_ID),
    },
    HostRow {
        name: b"createDirs",
        parameter: HostParameter::CreateDirs,
        values: Values::Switch,
    },
    HostRow {
        name: b"fileType",
        parameter: HostParameter::FileType,
        values: Values::Kind,
    },
    HostRow {
        name: b"escapeControlCharacters",
        parameter: HostParameter::EscapeControlCharacters,
        values: Values::Switch,
    },
];

static OF_RECEIVERS: [HostRow; 5] = [
    HostRow {
        name: b"maxSessions",
        parameter: HostParameter::MaxSessions,
        values: Values::Number(1, SESSIONS),
    },
    HostRow {
        name: b"keepAlive",
        parameter: HostParameter::KeepAlive,
        values: Values::Switch,
    },
    HostRow {
        name: b"keepAlive.time",
        parameter: HostParameter::KeepAliveTime,
        values: Values::Number(1, MOST),
    },
    HostRow {
        name: b"keepAlive.interval",
        parameter: HostParameter::KeepAliveInterval,
        values: Values::Number(1, MOST),
    },
    HostRow {
        name: b"keepAlive.probes",
        parameter: HostParameter::KeepAliveProbes,
        values: Values::Number(1, 127),
    },
];

/// The parameters that such an object takes.
#[tactic(auto, unfolding(crate::specs::HostParameters::rows))]
pub fn rows(holder: Holder) -> &'static [HostRow]
    ensures { map view.row_of result.now ≡ spec.rows holder }
{
    match holder {
        Holder::Archive => &OF_ARCHIVES,
        Holder::Receiver => &OF_RECEIVERS,
        Holder::Other => &[],
    }
}

fn is_named(row: &HostRow, name: &[u8]) -> bool
    ensures { result ≡ spec.is_named name.now (view.row_of row.now) }
{
    row.name.eq_ignore_ascii_case(name)
}

/// The row of a name among those, without regard to the case of ASCII letters.
pub fn row_named(mut rows: &'static [HostRow], name: &[u8]) -> Option<&'static HostRow>
    ensures { view.found result ≡ spec.lookup name.now (map view.row_of rows.entry.now) }
{
    while let [row, rest @ ..] = rows {
        if is_named(row, name) {
            return Some(row);
        }
        rows = rest;
    }
    None
}
