// How bodies are read.

/// How the body of a response is read for links.
#[derive(Clone, Copy, Debug)]
pub enum Source {
    /// As HTML.
    Page,
    /// As a style sheet.
    StyleSheet,
    /// As a script.
    Script,
    /// Not at all.
    Nothing,
}
