//! Sites and their relays.

use std::alloc::Global;
use std::net::IpAddr;
use std::sync::Arc;
use sy_rules::Plan;
use sy_site::{Host, Site};

const TEXT: &[u8] = b"relay hub hub.conf\nentry hub 6515\nprotect auth.* hub audit\n";

const HUB: &[u8] = br#"
module(load="imtcp")
input(type="imtcp" port="6515" flowControl="full")
action(name="audit" type="omfile" file="audit.log" action.resumeRetryCount="-1")
"#;

static FILES: [(&str, &[u8]); 1] = [("hub.conf", HUB)];

/// A site of one relay.
pub(crate) fn site_of_a_relay(alloc: Global) -> Option<Site> {
    Site::read(alloc, TEXT, &FILES).ok()
}

/// What a site says of its first relay.
pub fn first_relay(alloc: Global) -> Option<(usize, Option<IpAddr>, Arc<Plan>)> {
    let site = site_of_a_relay(alloc)?;
    if site.relays() == 0 {
        return None;
    }
    let plan = Arc::try_clone(Site::plan(&site, 0)).ok()?;
    let listens = match Site::host(&site, 0) {
        Host::Address(_) => Site::listens_at(&site, 0),
        Host::Name(_) => None,
    };
    Some((Site::name(&site, 0).len(), listens, plan))
}
