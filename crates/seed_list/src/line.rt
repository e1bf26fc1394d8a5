// Lines without the blanks at their ends, and their kinds.
ghost use Rattle.std.specs.Prelude.{◌≡◌, ◌≤◌, length};
ghost use Rattle.std.specs.List.{prefix_len, suffix_len};
ghost use Rattle.seed_list.specs.Lines.{is_blank, is_passed, is_prefix_line, is_seed_line, trimmed};

/// A space, a tab or a CR.
fn is_blank(byte: u8) -> bool
    ensures { result ≡ is_blank byte }
{
    byte == b' ' || byte == b'\t' || byte == b'\r'
}

/// How many blanks stand at the beginning.
fn blanks_before(line: &[u8]) -> usize
    ensures count { result ≡ prefix_len is_blank line.now }
    ensures within { result ≤ length line.now }
{
    line.iter().take_while(|b| is_blank(**b)).count()
}

/// How many blanks stand at the end.
fn blanks_behind(line: &[u8]) -> usize
    ensures count { result ≡ suffix_len is_blank line.now }
    ensures within { result ≤ length line.now }
{
    line.iter().rev().take_while(|b| is_blank(**b)).count()
}

/// Bytes without the blanks at both ends.
pub(crate) fn trimmed(line: &[u8]) -> &[u8]
    ensures { result.now ≡ trimmed line.now }
{
    let rest = &line[blanks_before(line)..];
    &rest[..rest.len() - blanks_behind(rest)]
}

/// A text without the blanks at both ends.
pub(crate) fn trimmed_text(line: &str) -> &str
    ensures { result.now ≡ trimmed line.now }
{
    let rest = &line[blanks_before(line.as_bytes())..];
    &rest[..rest.len() - blanks_behind(rest.as_bytes())]
}

/// Whether a line is passed over.
pub(crate) fn is_passed(line: &[u8]) -> bool
    ensures { result ≡ is_passed line.now }
{
    match line {
        [] => true,
        [first, ..] => *first == b'#',
    }
}

/// Whether a line gives a prefix and no seed.
pub(crate) fn is_prefix_line(line: &[u8]) -> bool
    ensures { result ≡ is_prefix_line line.now }
{
    match line {
        [] => false,
        [first, ..] => *first == b'+',
    }
}

/// Whether a line is a seed.
pub(crate) fn is_seed_line(line: &[u8]) -> bool
    ensures { result ≡ is_seed_line line.now }
{
    !(is_passed(line) || is_prefix_line(line))
}
