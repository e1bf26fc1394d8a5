// Which texts the settings take.
ghost use Rattle.std.specs.Prelude.{◌≡◌, ◌≤◌, ◌&&◌, length, nat_le, decimal, IfOk, IsTrue, MatchOption, ℕ};
ghost use Rattle.std.specs.List.{list_all};
ghost use Rattle.crawl_kinds.specs.Text.{is_text, is_visible};
ghost use Rattle.job_spec.specs.Texts.{is_agent, is_agent_byte, is_digit, is_host, is_host_byte, is_letter, is_lower, is_name, is_name_byte, is_port, is_proxy, is_upper};

use crawl_kinds::{Key, NoMemory, TextFault};
use std::alloc::Global;

fn is_lower(byte: u8) -> bool
    ensures { result ≡ is_lower byte }
{
    b'a' <= byte && byte <= b'z'
}

fn is_upper(byte: u8) -> bool
    ensures { result ≡ is_upper byte }
{
    b'A' <= byte && byte <= b'Z'
}

fn is_digit(byte: u8) -> bool
    ensures { result ≡ is_digit byte }
{
    b'0' <= byte && byte <= b'9'
}

fn is_letter(byte: u8) -> bool
    ensures { result ≡ is_letter byte }
{
    is_lower(byte) || is_upper(byte)
}

/// From 1 to `most` bytes.
fn is_short(bytes: &[u8], most: usize) -> bool
    ensures { result ≡ (nat_le 1 (length bytes.now) && nat_le (length bytes.now) most) }
{
    1 <= bytes.len() && bytes.len() <= most
}

fn are_name_bytes(bytes: &[u8]) -> bool
    ensures { result ≡ list_all is_name_byte bytes.now }
{
    bytes
        .iter()
        .all(|b| is_lower(*b) || is_digit(*b) || *b == b'-')
}

fn are_agent_bytes(bytes: &[u8]) -> bool
    ensures { result ≡ list_all is_agent_byte bytes.now }
{
    bytes
        .iter()
        .all(|b| is_letter(*b) || *b == b'_' || *b == b'-')
}

fn are_host_bytes(bytes: &[u8]) -> bool
    ensures { result ≡ list_all is_host_byte bytes.now }
{
    bytes.iter().all(|b| is_letter(*b) || is_digit(*b) || *b == b'.' || *b == b'-')
}

/// A job's name.
#[tactic(auto, unfolding(job_spec::specs::Texts::is_name))]
pub(crate) fn is_name(text: &str) -> bool
    ensures { result ≡ is_name text.now }
{
    is_short(text.as_bytes(), 32) && are_name_bytes(text.as_bytes())
}

/// A product token.
#[tactic(auto, unfolding(job_spec::specs::Texts::is_agent))]
pub(crate) fn is_agent(text: &str) -> bool
    ensures { result ≡ is_agent text.now }
{
    is_short(text.as_bytes(), 64) && are_agent_bytes(text.as_bytes())
}

/// A host.
fn is_host(bytes: &[u8]) -> bool
    ensures { result ≡ is_host bytes.now }
{
    is_short(bytes, 255) && are_host_bytes(bytes)
}

/// The number from 1 on that a text writes in decimal.
fn port_of(text: &str) -> Option<u16>
    ensures { MatchOption result ((n : ℕ) → 1 ≤ n → n ≤ 65535 → text.now ≡ decimal n → ⊥)
        (λ n. (1 ≤ n) × (n ≤ 65535) × (text.now ≡ decimal n)) }
{
    let bytes = text.as_bytes();
    if bytes.len() == 0 {
        return None;
    }
    if bytes[0] == b'+' {
        return None;
    }
    if bytes[0] == b'0' {
        return None;
    }
    match text.parse::<u16>() {
        Ok(port) => Some(port),
        Err(_) => None,
    }
}

/// A port.
#[tactic(auto, using(crate::proofs::Ports::port_is, crate::proofs::Ports::port_is_not))]
fn is_port(text: &str) -> bool
    ensures { result ≡ is_port text.now }
{
    match port_of(text) {
        Some(_) => true,
        None => false,
    }
}

/// A proxy.
#[tactic(auto, unfolding(job_spec::specs::Texts::is_proxy))]
pub(crate) fn is_proxy(text: &str) -> bool
    ensures { result ≡ is_proxy text.now }
{
    match text.split_once(':') {
        Some((host, port)) => is_host(host.as_bytes()) && is_port(port),
        None => false,
    }
}

/// The key of a text that is one.
pub(crate) fn key_of(alloc: Global, text: &str) -> Result<Key, NoMemory>
    requires { IsTrue (is_text is_visible 2200 text.now) }
    ensures { IfOk result (λ key. key ≡ text.now) }
{
    match Key::new(alloc, text) {
        Ok(key) => Ok(key),
        Err(TextFault::NoMemory) => Err(NoMemory),
        Err(TextFault::TooLong { .. }) => unreachable!(),
        Err(TextFault::BadByte { .. }) => unreachable!(),
    }
}
