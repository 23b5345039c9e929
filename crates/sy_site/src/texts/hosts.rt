//! The words that say where others connect, and where a relay listens.

ghost use Rattle.std.specs.Prelude.{◌≡◌, ◌==◌, ◌∷◌, [], ℕ, List, IfOk, IfSome, IfNone, Option};
ghost use Rattle.std.specs.List.{list_all, list_any};
ghost use Rattle.std.specs.Char.{is_ascii_alphabetic};
ghost use Rattle.std.specs.declared.net.ip_addr.IpAddr.{IpAddr as Address};
ghost use Rattle.sy_site.specs.declared.site.host.Host.{Host as Reached};
ghost use Rattle.sy_site.specs.internal.Lines.{IsListenPart, host_of};
ghost use Rattle.sy_site.specs.Sites.{address_in};
ghost use Rattle.sy_site.specs.texts.Lines.{words};
ghost use Rattle.sy_site.specs.texts.Shapes as spec;

use crate::site::host::Host;
use crate::texts::lines::{behind_word, next_word};
use std::alloc::{AllocError, Global};
use std::net::{IpAddr, Ipv4Addr};
use sy_script::Items;

/// The most bytes of a host's name.
const HOST_BYTES: usize = 255;

/// A host, as a word says it.
#[derive(Clone, Copy)]
pub enum HostWord<'t> {
    Address(IpAddr),
    Name(&'t [u8]),
}

/// Where others connect to a relay, and the address that it listens at: all of them where there is none.
#[derive(Clone, Copy)]
pub struct Reach<'t> {
    pub host: HostWord<'t>,
    pub listens: Option<IpAddr>,
}

fn is_host_byte(byte: u8) -> bool
    ensures { result ≡ spec.is_host_byte byte }
{
    byte.is_ascii_alphanumeric() || byte == b'-' || byte == b'.'
}

fn all_host_bytes(word: &[u8]) -> bool
    ensures { result ≡ list_all spec.is_host_byte word.now }
{
    word.iter().all(|b| is_host_byte(*b))
}

fn has_letter(word: &[u8]) -> bool
    ensures { result ≡ list_any is_ascii_alphabetic word.now }
{
    word.iter().any(|b| b.is_ascii_alphabetic())
}

#[tactic(auto, unfolding(crate::specs::texts::Shapes::is_host_name))]
fn is_host_name(word: &[u8]) -> bool
    ensures { result ≡ spec.is_host_name word.now }
{
    word.len() <= HOST_BYTES
        && all_host_bytes(word)
        && has_letter(word)
        && word != b"listen".as_slice()
}

/// The host that a word is.
#[tactic(auto, using(crate::proofs::lemmas::texts::Hosts::named_host, crate::proofs::lemmas::texts::Hosts::no_host))]
pub fn read_host(word: &[u8]) -> Option<HostWord<'_>>
    ensures some { IfSome result (λ it. spec.IsHost word.now (host_of it)) }
    ensures none { IfNone result ((it : Reached) → spec.IsHost word.now it → ⊥) }
{
    match IpAddr::parse_ascii(word) {
        Ok(address) => Some(HostWord::Address(address)),
        Err(_) => {
            if is_host_name(word) {
                Some(HostWord::Name(word))
            } else {
                None
            }
        }
    }
}

/// A host with memory of its own.
pub fn kept_host(alloc: Global, host: HostWord<'_>) -> Result<Host, AllocError>
    ensures { IfOk result (λ it. it ≡ host_of host.entry) }
{
    match host {
        HostWord::Address(address) => Ok(Host::Address(address)),
        HostWord::Name(name) => match Items::from_slice(alloc, name) {
            Ok(name) => Ok(Host::Name(name)),
            Err(error) => Err(error),
        },
    }
}

// The address that the two words of a text give, the first of which is `listen`.
fn listen_address(text: &[u8]) -> Option<IpAddr>
    ensures some { IfSome result (λ a. IsListenPart (words text.now) a) }
    ensures none { IfNone result ((a : Address) → IsListenPart (words text.now) a → ⊥) }
{
    let rest = behind_word(text, b"listen")?;
    let (word, rest) = next_word(rest)?;
    match next_word(rest) {
        Some(_) => None,
        None => match IpAddr::parse_ascii(word) {
            Ok(address) => Some(address),
            Err(_) => None,
        },
    }
}

// Where a relay listens whose line doesn't say it: where others connect, if that is an address.
fn listens_there(host: HostWord<'_>) -> Option<IpAddr>
    ensures { result ≡ address_in (host_of host.entry) }
{
    match host {
        HostWord::Address(address) => Some(address),
        HostWord::Name(_) => None,
    }
}

fn has_dot(word: &[u8]) -> bool
    ensures { result ≡ list_any (λ b. b == 46) word.now }
{
    word.iter().any(|b| *b == b'.')
}

// Whether a host may stand without `listen` behind it: an address, or a name with a dot.
fn stands_alone(host: HostWord<'_>) -> bool
    ensures { result ≡ spec.stands_alone (host_of host.entry) }
{
    match host {
        HostWord::Address(_) => true,
        HostWord::Name(name) => has_dot(name),
    }
}

// What one word behind a relay's file says.
#[tactic(auto, using(crate::proofs::lemmas::texts::Hosts::not_alone))]
fn at_host(word: &[u8]) -> Option<Reach<'_>>
    ensures some { IfSome result (λ it. spec.IsReach (word.now ∷ []) (host_of it.host) it.listens) }
    ensures none { IfNone result ((host : Reached) (listens : Option Address)
        → spec.IsReach (word.now ∷ []) host listens → ⊥) }
{
    match read_host(word) {
        Some(host) => {
            if stands_alone(host) {
                Some(Reach {
                    host,
                    listens: listens_there(host),
                })
            } else {
                None
            }
        }
        None => None,
    }
}

// What the words of a text from `listen` on say behind a relay's file, where others connect at the loopback address.
fn listening(text: &[u8]) -> Option<Reach<'_>>
    ensures some { IfSome result (λ it. spec.IsReach (words text.now) (host_of it.host) it.listens) }
    ensures none { (first second : List ℕ) → words text.now ≡ first ∷ second ∷ []
        → IfNone result ((host : Reached) (listens : Option Address) → spec.IsReach (words text.now) host listens → ⊥) }
{
    match listen_address(text) {
        Some(address) => Some(Reach {
            host: HostWord::Address(IpAddr::V4(Ipv4Addr::LOCALHOST)),
            listens: Some(address),
        }),
        None => None,
    }
}

// What a word behind a relay's file says with the words of a text from `listen` on.
fn at_host_listening<'t>(word: &'t [u8], text: &[u8]) -> Option<Reach<'t>>
    ensures some { IfSome result (λ it. spec.IsReach (word.now ∷ words text.now) (host_of it.host) it.listens) }
    ensures none { (second third : List ℕ) (later : List (List ℕ)) → words text.now ≡ second ∷ third ∷ later
        → IfNone result ((host : Reached) (listens : Option Address)
        → spec.IsReach (word.now ∷ words text.now) host listens → ⊥) }
{
    match read_host(word) {
        Some(host) => match listen_address(text) {
            Some(address) => Some(Reach {
                host,
                listens: Some(address),
            }),
            None => None,
        },
        None => None,
    }
}

/// What the words behind a relay's file say.
pub fn read_reach(behind: &[u8]) -> Option<Reach<'_>>
    ensures some { IfSome result (λ it. spec.IsReach (words behind.now) (host_of it.host) it.listens) }
    ensures none { IfNone result ((host : Reached) (listens : Option Address)
        → spec.IsReach (words behind.now) host listens → ⊥) }
{
    let Some((first, rest)) = next_word(behind) else {
        let address = IpAddr::V4(Ipv4Addr::LOCALHOST);
        return Some(Reach {
            host: HostWord::Address(address),
            listens: Some(address),
        });
    };
    match next_word(rest) {
        None => at_host(first),
        Some((_, after)) => match next_word(after) {
            None => listening(behind),
            Some(_) => at_host_listening(first, rest),
        },
    }
}
