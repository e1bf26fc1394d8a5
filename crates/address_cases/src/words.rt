// Words of a case.
use case_file::Entry;

/// The word of this number or, where there is none, the text of the case; empty where it is not UTF-8. Long texts, which are
/// written by a repetition, stand in texts.
pub fn asked(entry: &Entry, number: usize) -> &str {
    match entry.words.get(number) {
        Some(_) => entry.text_word(number),
        None => str::from_utf8(entry.text.as_slice()).unwrap_or(""),
    }
}
