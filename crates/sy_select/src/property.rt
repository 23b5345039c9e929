//! Properties: what of a message an expression can test (rsyslog manual, "rsyslog Properties").
ghost use Rattle.std.specs.Prelude.{◌≡◌, map};
ghost use Rattle.sy_select.specs.Properties as spec;

/// The parts of a message that its class doesn't give.
#[derive(Clone, Copy)]
pub enum Field {
    Msg,
    RawMsg,
    Hostname,
    AppName,
    ProcId,
    MsgId,
}

/// The two parts of a class.
#[derive(Clone, Copy)]
pub enum Part {
    Facility,
    Severity,
}

/// What an expression names after a `$`.
#[derive(Clone, Copy)]
pub enum Property {
    /// The text of a field.
    Field(Field),
    /// The text of a part of the class.
    Text(Part),
    /// The number of a part of the class.
    Number(Part),
}

/// The names of the properties.
static PROPERTIES: [(&[u8], Property); 10] = [
    (b"$msg", Property::Field(Field::Msg)),
    (b"$rawmsg", Property::Field(Field::RawMsg)),
    (b"$hostname", Property::Field(Field::Hostname)),
    (b"$app-name", Property::Field(Field::AppName)),
    (b"$procid", Property::Field(Field::ProcId)),
    (b"$msgid", Property::Field(Field::MsgId)),
    (b"$syslogfacility", Property::Number(Part::Facility)),
    (b"$syslogseverity", Property::Number(Part::Severity)),
    (b"$syslogfacility-text", Property::Text(Part::Facility)),
    (b"$syslogseverity-text", Property::Text(Part::Severity)),
];

/// The properties that a test may ask, each by its name with the `$`.
pub fn properties() -> &'static [(&'static [u8], Property)]
    ensures { map (λ k. (k.0.now, k.1)) result.now ≡ spec.properties }
{
    &PROPERTIES
}

fn lookup(mut table: &[(&[u8], Property)], name: &[u8]) -> Option<Property>
    ensures { result ≡ spec.lookup (map (λ k. (k.0.now, k.1)) table.entry.now) name.now }
{
    while let [entry, rest @ ..] = table {
        if entry.0 == name {
            return Some(entry.1);
        }
        table = rest;
    }
    None
}

/// The property of a name, with its `$`. Names are exact.
#[tactic(auto, unfolding(crate::specs::Properties::property_of))]
pub(crate) fn property_of(name: &[u8]) -> Option<Property>
    ensures { result ≡ spec.property_of name.now }
{
    lookup(&PROPERTIES, name)
}
