// Texts of visible bytes, and addresses.
ghost use Rattle.std.specs.Prelude.{◌≡◌, ℕ, IsTrue, MatchOption};
ghost use Rattle.crawl_kinds.specs.Text.{is_visible, is_text};
ghost use Rattle.uri_form.specs.Named.{IsNamed};
ghost use Rattle.journal_valid.specs.Items.{IsAddress};
ghost use Rattle.journal_read.specs.Reading.{AreVisible, Reads};

use crate::fault::Misread;
use crate::hosts::Hosts;
use crawl_kinds::{Text, TextFault, TextForm, Uri};
use std::alloc::Global;
use std::str;
use uri_form::Named;

/// The text of bytes, which those that are all visible have.
pub fn str_of(bytes: &[u8]) -> Option<&str>
    ensures { MatchOption result (AreVisible bytes.now → ⊥) (λ text. text.now ≡ bytes.now) }
{
    match str::from_utf8(bytes) {
        Ok(text) => Some(text),
        Err(_) => None,
    }
}

/// The text of one kind that bytes are.
pub fn text_of<F: TextForm>(alloc: Global, bytes: &[u8]) -> Result<Text<F>, Misread>
    requires { (b : ℕ) → IsTrue (F.allowed b) → IsTrue (is_visible b) }
    ensures { Reads (λ text. (text ≡ bytes.now) × IsTrue (is_text F.allowed F.most bytes.now)) result }
{
    let Some(text) = str_of(bytes) else {
        return Err(Misread::Bad);
    };
    match Text::new(alloc, text) {
        Ok(text) => Ok(text),
        Err(TextFault::NoMemory) => Err(Misread::NoMemory),
        Err(_) => Err(Misread::Bad),
    }
}

/// The address that bytes are, in the form in which it is written.
pub fn address_of(alloc: Global, hosts: &mut Hosts, bytes: &[u8]) -> Result<Uri, Misread>
    ensures { Reads (λ uri. (uri ≡ bytes.now) × IsAddress bytes.now) result }
{
    let Some(text) = str_of(bytes) else {
        return Err(Misread::Bad);
    };
    match hosts.uri(alloc, text)? {
        Some(uri) => Ok(uri),
        None => Err(Misread::Bad),
    }
}

/// The address that bytes are, in the form in which it is written, with its names. Its host is often one that is known.
pub fn named_of(alloc: Global, hosts: &mut Hosts, bytes: &[u8]) -> Result<Named, Misread>
    ensures { Reads (λ named. IsNamed bytes.now named × IsAddress bytes.now) result }
{
    let Some(text) = str_of(bytes) else {
        return Err(Misread::Bad);
    };
    match hosts.named(alloc, text)? {
        Some(named) => Ok(named),
        None => Err(Misread::Bad),
    }
}
