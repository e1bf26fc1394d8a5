// Links.
use crawl_kinds::Uri;

/// A link of a page: the letter of its hop and its address.
///
/// The letters are `L` for a page to go to, `E` for what is embedded, `R` for a redirect and `X` for what is guessed from a
/// script.
#[derive(Drop)]
pub struct Found {
    pub letter: u8,
    pub uri: Uri,
}
