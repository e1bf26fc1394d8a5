// Texts of allowed bytes, which contracts see as lists of bytes.
ghost use Rattle.std.specs.Prelude.{◌≡◌, List, ℕ, IfOk, IsOkUnless, Option, Some, None, IsTrue, string_bytes, not, position, bytes_eq};
ghost use Rattle.std.proofs.Common.{rules};
ghost use Rattle.std.specs.Cmp.Rules.{comparing};
ghost use Rattle.std.specs.Cmp.Lexicographic.{slice_cmp};
ghost use Rattle.std.specs.Ordering.{nat_cmp, as_partial_cmp};
ghost use Rattle.crawl_kinds.specs.Text.{text_fault, is_text};

use crate::form::{ClassForm, DigestForm, KeyForm, MediaForm, PathForm, TextForm, UriForm};
use crate::memory::{Copied, NoMemory};
use std::alloc::Global;
use std::cmp::Ordering;
use std::fmt;
use std::marker::{Model, PhantomData};

/// An address.
pub type Uri = Text<UriForm>;

/// The name under which an address is known as seen.
pub type Key = Text<KeyForm>;

/// The name of a host's queue.
pub type ClassKey = Text<ClassForm>;

/// How an address was found: a letter for each hop from a seed, `L` a link, `E` an embed, `R` a redirect,
/// `X` a speculative embed, `P` a prerequisite.
pub type HopPath = Text<PathForm>;

/// A media type.
pub type Media = Text<MediaForm>;

/// A digest, as `sha1:` and base32 (RFC 4648 §6).
pub type Digest = Text<DigestForm>;

/// Why a text is refused: the first that holds, in this order.
#[derive(Clone, Copy, Debug, PartialEq, Eq)]
pub enum TextFault {
    /// It has so many bytes, more than its kind may have.
    TooLong { len: usize },
    /// The first byte that its kind may not hold stands here.
    BadByte { at: usize },
    NoMemory,
}

/// A text of one kind. Contracts see its bytes.
#[derive(Drop)]
pub struct Text<F: TextForm> {
    text: String,
    form: PhantomData<F>,
}

impl<F: TextForm> Model for Text<F> {
    ghost Value = { List ℕ };

    ghost view = { λ a. string_bytes a.text };

    ghost invariant = { λ a. IsTrue (is_text F.allowed F.most (string_bytes a.text)) };
}

/// The first byte that a text of this kind may not hold.
fn first_other<F: TextForm>(bytes: &[u8]) -> Option<usize>
    ensures { result ≡ position (λ b. not (F.allowed b)) bytes.now }
{
    bytes.iter().position(|b| !F::allows(*b))
}

/// Why bytes are no text of this kind.
fn fault_of<F: TextForm>(bytes: &[u8]) -> Option<TextFault>
    ensures { result ≡ text_fault F.allowed F.most bytes.now }
{
    let len = bytes.len();
    if F::most() < len {
        return Some(TextFault::TooLong { len });
    }
    match first_other::<F>(bytes) {
        Some(at) => Some(TextFault::BadByte { at }),
        None => None,
    }
}

impl<F: TextForm> Text<F> {
    /// The text of these bytes, or the first fault that they have.
    pub fn new(alloc: Global, text: &str) -> Result<Self, TextFault>
        ensures same { IfOk result (λ own. own ≡ text.now) }
        ensures refused { (fault : TextFault) → text_fault F.allowed F.most text.now ≡ Some fault → result ≡ Err fault }
        ensures memory { text_fault F.allowed F.most text.now ≡ None → IsOkUnless result TextFault.NoMemory }
    {
        if let Some(fault) = fault_of::<F>(text.as_bytes()) {
            return Err(fault);
        }
        match String::from_str(alloc, text) {
            Ok(text) => Ok(Text {
                text,
                form: PhantomData,
            }),
            Err(_) => Err(TextFault::NoMemory),
        }
    }

    pub fn as_str(&self) -> &str
        ensures same { result.now ≡ self.now }
        ensures text { IsTrue (is_text F.allowed F.most self.now) }
    {
        self.text.as_str()
    }

    pub fn as_bytes(&self) -> &[u8]
        ensures same { result.now ≡ self.now }
        ensures text { IsTrue (is_text F.allowed F.most self.now) }
    {
        self.text.as_bytes()
    }
}

impl<F: TextForm> Copied for Text<F> {
    fn copy(&self) -> Result<Self, NoMemory> {
        Ok(Text {
            text: self.text.clone()?,
            form: PhantomData,
        })
    }
}

impl<F: TextForm> fmt::Display for Text<F> {
    ghost output = { λ a. Some a };

    fn fmt<W: fmt::Write>(&self, f: &mut fmt::Formatter<W>) -> fmt::Result {
        f.write_str(self.text.as_str())
    }
}

impl<F: TextForm> PartialEq for Text<F> {
    ghost eq = { bytes_eq };

    ghost laws = { Prim.search (comparing, rules) };

    fn eq(&self, other: &Self) -> bool {
        self.text.as_str() == other.text.as_str()
    }
}

impl<F: TextForm> Eq for Text<F> {
    ghost laws = { Prim.search (comparing, rules) };
}

/// Texts stand in byte order.
impl<F: TextForm> Ord for Text<F> {
    ghost cmp = { slice_cmp nat_cmp };

    ghost total = { Prim.search (comparing, rules) };

    ghost matches_partial_cmp = { Prim.search (comparing, rules) };

    ghost matches_eq = { Prim.search (comparing, rules) };

    fn cmp(&self, other: &Self) -> Ordering {
        self.text.as_str().cmp(other.text.as_str())
    }
}

impl<F: TextForm> PartialOrd for Text<F> {
    ghost partial_cmp = { as_partial_cmp (slice_cmp nat_cmp) };

    ghost laws = { Prim.search (comparing, rules) };

    fn partial_cmp(&self, other: &Self) -> Option<Ordering> {
        Some(self.cmp(other))
    }
}
