// Why a text is no address.
ghost use Rattle.std.specs.Prelude.{◌≡◌};
ghost use Rattle.uri_form.specs.Fault.{fault_of_parse};

use crawl_kinds::NoMemory;
use url::ParseError;

/// Why a text is no address: the first that holds, in this order.
#[derive(Clone, Copy, Debug, PartialEq, Eq)]
pub enum UriFault {
    /// The text has so many bytes, more than 65,536; or else what it is written as has more than 2,083, or
    /// more than 2,072 before its path. The first of these three lengths that is past its bound.
    TooLong { len: usize },
    /// The parser of the URL Standard refuses the text.
    NotAUri,
    /// Its scheme is neither http nor https.
    OtherScheme,
    NoMemory,
}

impl From<NoMemory> for UriFault {
    ghost use Rattle.std.specs.Prelude.{◌≡◌};
    ghost use Rattle.uri_form.specs.declared.fault.UriFault.{UriFault};

    ghost from_gives = { λ _ fault. fault ≡ UriFault.NoMemory };

    fn from(_: NoMemory) -> Self {
        UriFault::NoMemory
    }
}

/// What a refusal of `url` means. That a URL comes to 4 GB counts as want of memory.
pub(crate) fn fault_of_parse(refusal: ParseError) -> UriFault
    ensures { result ≡ fault_of_parse refusal }
{
    match refusal {
        ParseError::OutOfMemory => UriFault::NoMemory,
        ParseError::Overflow => UriFault::NoMemory,
        _ => UriFault::NotAUri,
    }
}
