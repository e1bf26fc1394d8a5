// The rules of a scope, as a job writes them.
ghost use Rattle.std.specs.Prelude.{◌≡◌, true};

use crawl_kinds::{Listed, Text, TextForm};
use uri_form::Surt;

/// Texts of any bytes and any length.
#[derive(Debug, Drop)]
pub struct FreeForm;

impl TextForm for FreeForm {
    ghost use Rattle.std.specs.Prelude.{true};

    ghost allowed = { λ _. true };

    ghost most = { 18446744073709551615 };

    fn allows(_byte: u8) -> bool {
        true
    }

    fn most() -> usize {
        usize::MAX
    }
}

/// A text of any bytes, such as a pattern or the name of a scheme.
pub type FreeText = Text<FreeForm>;

/// Whether a candidate is taken.
#[derive(Clone, Copy, Debug, PartialEq, Eq)]
pub enum Decision {
    Accept,
    Reject,
}

/// A rule of a scope. All rules answer; the last answer decides.
#[derive(Drop)]
pub enum Rule {
    /// Accepts.
    Accept,
    /// Rejects.
    Reject,
    /// Gives its answer where the SURT form begins with one of the prefixes or, with `seeds`, with one that the seeds make.
    Surts {
        answer: Decision,
        prefixes: Listed<Surt>,
        seeds: bool,
    },
    /// Rejects where the path has more than `max` letters.
    Hops {
        max: u32,
    },
    /// Accepts where 1 to `max` letters follow the last `L` of the path, at most `speculative` of them `X`.
    Transclusion {
        max: u32,
        speculative: u32,
    },
    /// Gives its answer where one of the patterns is found in the address.
    Regex {
        answer: Decision,
        patterns: Listed<FreeText>,
    },
    /// Rejects where more than `max` neighbouring segments of the address's path are equal and not empty.
    Pathological {
        max: u32,
    },
    /// Rejects where the address's path has more than `max` slashes.
    Segments {
        max: u32,
    },
    /// Rejects where the address's scheme is none of these.
    Schemes {
        names: Listed<FreeText>,
    },
}
