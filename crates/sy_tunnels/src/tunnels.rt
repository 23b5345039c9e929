//! The links of a site that go through a tunnel.

ghost use Rattle.std.specs.Prelude.{◌≡◌, ◌⊎◌, ◌&&◌, ◌<◌, [], ◌∷◌, Decides, IfErr, IfNone, IfOk, IfSome, OnOk, Option, Some, codes, false, length, map};
ghost use Rattle.sy_tunnels.specs.declared.tunnels.Tunnel.{Tunnel as AnyTunnel};
ghost use Rattle.std.specs.List.{position};
ghost use Rattle.std.specs.Str.{bytes_eq};
ghost use Rattle.sy_site.specs.Sites as sites;
ghost use Rattle.sy_tunnels.specs.Lines.{lines_of as raw_lines, words_of as words};
ghost use Rattle.sy_tunnels.specs.Tunnels as spec;

use crate::lines::{lines_of, words_of};
use std::alloc::Global;
use sy_rules::laws::plans_are_whole;
use sy_rules::{Action, Destination};
use sy_site::{Site, SiteAction, SiteFault};

/// A link that a line of a site file says to go through a tunnel: the number of the line, from 1, and the forward.
#[derive(Clone, Copy)]
pub struct Tunnel {
    pub line: usize,
    pub action: SiteAction,
}

// Whether an action is a forward of this name.
fn is_link(action: &Action, name: &[u8]) -> bool
    ensures { result ≡ (spec.is_forward action.now.destination && bytes_eq action.now.name name.now) }
{
    match &action.destination {
        Destination::Forward(_, _) => action.name.as_slice() == name,
        Destination::Archive(_) => false,
    }
}

// The place of the first forward of a name.
fn place_of_link(actions: &[Action], name: &[u8]) -> Option<usize>
    ensures place { result ≡ position (λ a. spec.is_forward a.destination && bytes_eq a.name name.now) actions.now }
    ensures within { IfSome result (λ n. n < length actions.now) }
{
    actions.iter().position(|action| is_link(action, name))
}

// The forward of a relay that has a name.
fn link_at(site: &Site, relay: u32, name: &[u8]) -> Option<SiteAction>
    requires exists { relay < length site.now.relays }
    ensures { result ≡ spec.link_at site.now name.now relay }
{
    let plan = site.plan(relay);
    plans_are_whole(plan);
    match place_of_link(plan.actions(), name) {
        Some(action) => Some(SiteAction {
            relay,
            action: action as u32,
        }),
        None => None,
    }
}

// The link of the relay and the action of those names; else the fault of the line of that number.
fn link_named(
    site: &Site,
    number: usize,
    relay: &[u8],
    action: &[u8],
) -> Result<SiteAction, SiteFault>
    ensures ok { IfOk result (λ link. spec.link_named site.now relay.now action.now ≡ Some link) }
    ensures err { IfErr result (spec.IsNoLink site.now number relay.now action.now) }
{
    match site.relay_named(relay) {
        Some(at) => match link_at(site, at, action) {
            Some(link) => Ok(link),
            None => Err(SiteFault::NoSuchAction(number)),
        },
        None => Err(SiteFault::Line(number)),
    }
}

// Whether one of the tunnels is of this link.
fn is_among(tunnels: &[Tunnel], link: SiteAction) -> bool
    ensures { Decides result (spec.IsGiven tunnels.now link) }
{
    tunnels.iter().any(|tunnel| tunnel.action == link)
}

// The words of a list of two.
fn two_words<'t>(words: &[&'t [u8]]) -> Option<(&'t [u8], &'t [u8])>
    ensures some { IfSome result (λ two. map (λ word. word.now) words.now ≡ two.0.now ∷ two.1.now ∷ []) }
    ensures none { IfNone result (length words.now ≡ 2 → ⊥) }
{
    match words {
        [first, second] => Some((first, second)),
        _ => None,
    }
}

// What the tunnel line of that number says behind these tunnels; these are its words but the first.
fn read_tunnel_line(
    site: &Site,
    before: &[Tunnel],
    number: usize,
    rest: &[&[u8]],
) -> Result<Tunnel, SiteFault>
    ensures ok { IfOk result (λ tunnel. spec.Says site.now before.now number
        (codes "tunnel" ∷ map (λ word. word.now) rest.now) (Some tunnel)) }
    ensures err { IfErr result (spec.IsFaulty site.now before.now number
        (codes "tunnel" ∷ map (λ word. word.now) rest.now)) }
{
    let Some((relay, action)) = two_words(rest) else {
        return Err(SiteFault::Line(number));
    };
    let link = match link_named(site, number, relay, action) {
        Ok(link) => link,
        Err(fault) => return Err(fault),
    };
    if is_among(before, link) {
        return Err(SiteFault::Duplicate(number));
    }
    Ok(Tunnel {
        line: number,
        action: link,
    })
}

// The words behind the first one of a tunnel line.
fn behind_tunnel<'l, 't>(line: &'l [&'t [u8]]) -> Option<&'l [&'t [u8]]>
    ensures some { IfSome result (λ rest. map (λ word. word.now) line.entry.now ≡ codes "tunnel" ∷ map (λ word. word.now) rest.now) }
    ensures none { IfNone result (spec.is_tunnel (map (λ word. word.now) line.entry.now) ≡ false) }
{
    match line.split_first() {
        Some((first, rest)) if *first == b"tunnel".as_slice() => Some(rest),
        _ => None,
    }
}

// What the line of that number, of these words, says behind these tunnels.
fn read_line(
    site: &Site,
    before: &[Tunnel],
    number: usize,
    line: &[&[u8]],
) -> Result<Option<Tunnel>, SiteFault>
    ensures ok { IfOk result (λ found. spec.Says site.now before.now number (map (λ word. word.now) line.now) found) }
    ensures err { IfErr result (spec.IsFaulty site.now before.now number (map (λ word. word.now) line.now)) }
{
    let Some(rest) = behind_tunnel(line) else {
        return Ok(None);
    };
    match read_tunnel_line(site, before, number, rest) {
        Ok(tunnel) => Ok(Some(tunnel)),
        Err(fault) => Err(fault),
    }
}

// Puts the tunnel that the line of that number says behind the others.
fn push_line(
    alloc: Global,
    site: &Site,
    tunnels: &mut Vec<Tunnel>,
    number: usize,
    line: &[u8],
) -> Result<(), SiteFault>
    ensures ok { OnOk result ((it : Option AnyTunnel) × spec.Says site.now tunnels.old.items number (words line.now) it
        × (tunnels.new.items ≡ spec.with_tunnel tunnels.old.items it)) }
    ensures err { IfErr result (λ fault. (fault ≡ SiteFault.NoMemory) ⊎ spec.IsFaulty site.now tunnels.old.items number (words line.now) fault) }
{
    let Ok(line) = words_of(alloc, line) else {
        return Err(SiteFault::NoMemory);
    };
    match read_line(site, tunnels.as_slice(), number, line.as_slice()) {
        Ok(Some(tunnel)) => match tunnels.push(tunnel) {
            Ok(()) => Ok(()),
            Err(_) => Err(SiteFault::NoMemory),
        },
        Ok(None) => Ok(()),
        Err(fault) => Err(fault),
    }
}

/// The links of a site that the tunnel lines of its site file's text name, in the order of the lines; or the fault of the first
/// tunnel line that has one: `Line` where it isn't of three words or there is no relay of that name, `NoSuchAction` where that
/// relay has no forward of that name, `Duplicate` where an earlier line names the link.
pub fn tunnels_of(alloc: Global, site: &Site, text: &[u8]) -> Result<Vec<Tunnel>, SiteFault>
    ensures ok { IfOk result (λ tunnels. spec.AreTunnels site.now (map words (raw_lines text.now)) tunnels.items) }
    ensures err { IfErr result (λ fault. (fault ≡ SiteFault.NoMemory) ⊎ spec.HasTunnelFault site.now text.now fault) }
{
    let Ok(lines) = lines_of(alloc, text) else {
        return Err(SiteFault::NoMemory);
    };
    let mut tunnels = Vec::new(alloc);
    for at in 0..lines.len() {
        match push_line(alloc, site, &mut tunnels, at + 1, lines[at]) {
            Ok(()) => {}
            Err(fault) => return Err(fault),
        }
    }
    Ok(tunnels)
}
