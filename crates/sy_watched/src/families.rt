//! The names, kinds and meanings of metrics, as Prometheus asks for them.

/// What the numbers of a metric do.
#[derive(Clone, Copy)]
pub enum Kind {
    /// They rise, from 0 at the relay's start.
    Counter,
    /// They rise and fall.
    Gauge,
}

/// What a metric is.
#[derive(Clone, Copy)]
pub struct Family {
    /// its name behind `syc_`
    pub name: &'static str,
    pub kind: Kind,
    /// what it means, without a backslash or a line feed
    pub help: &'static str,
}

impl Kind {
    /// The word for it.
    pub fn word(self) -> &'static str {
        match self {
            Kind::Counter => "counter",
            Kind::Gauge => "gauge",
        }
    }
}

/// A metric whose numbers rise.
pub fn counter(name: &'static str, help: &'static str) -> Family {
    Family {
        name,
        kind: Kind::Counter,
        help,
    }
}

/// A metric whose numbers rise and fall.
pub fn gauge(name: &'static str, help: &'static str) -> Family {
    Family {
        name,
        kind: Kind::Gauge,
        help,
    }
}
