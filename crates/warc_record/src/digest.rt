// Digests as texts.
ghost use Rattle.std.specs.Prelude.{◌≡◌, IfOk, None, length};
ghost use Rattle.std.specs.Str.{IsUtf8};
ghost use Rattle.crawl_kinds.specs.Text.{text_fault, is_visible};
ghost use Rattle.record_spec.specs.Base32.{digest_text};

use crate::base32::push_base32;
use crawl_kinds::{Digest, NoMemory, TextFault};
use sha1::Sha1;
use std::alloc::Global;

/// The text of bytes that are one.
fn text_of(alloc: Global, bytes: &[u8]) -> Result<Digest, NoMemory>
    requires utf8 { IsUtf8 bytes.now }
    requires fits { text_fault is_visible 37 bytes.now ≡ None }
    ensures { IfOk result (λ digest. digest ≡ bytes.now) }
{
    match str::from_utf8(bytes) {
        Ok(text) => match Digest::new(alloc, text) {
            Ok(digest) => Ok(digest),
            Err(TextFault::TooLong { .. }) => unreachable!(),
            Err(TextFault::BadByte { .. }) => unreachable!(),
            Err(TextFault::NoMemory) => Err(NoMemory),
        },
        Err(_) => unreachable!(),
    }
}

/// The digest of bytes: `sha1:` and the base32 (RFC 4648 §6) of their SHA-1, 37 bytes.
pub fn digest_of(alloc: Global, bytes: &[u8]) -> Result<Digest, NoMemory>
    ensures text { IfOk result (λ digest. digest ≡ digest_text bytes.now) }
    ensures len { IfOk result (λ digest. length digest ≡ 37) }
{
    let mut text = Vec::from_slice(alloc, b"sha1:")?;
    push_base32(&Sha1::digest(bytes), &mut text)?;
    text_of(alloc, &text)
}
