// Whether a pattern matches a path (RFC 9309 §2.2.2, §2.2.3).
ghost use Rattle.std.specs.Prelude.{◌≡◌, ◌↔◌, ◌+◌, ◌*◌, ◌<◌, ◌≤◌, length, drop, IsTrue};
ghost use Rattle.robots_spec.specs.Patterns.{LiesOn, AfterRun, Matches};
ghost use Rattle.robots_rules.specs.Matching.{IsCompared, compare_cost};

use crate::line::{first_of, from};
use crate::steps::Steps;
use std::marker::Brand;
use std::sync::ledger::{Blank, Ledger};

/// What comes of a pattern's octets before its first `*`.
pub enum Compared {
    /// There is no `*`, and the pattern lies on the path.
    Lies,
    /// An octet differs, or the end.
    Differs,
    /// So many octets lie on those of the path, and then a `*` stands.
    Star(usize),
}

/// Compares up to the first `*`. A step is an octet of the pattern that is looked at.
fn compare<L: Ledger>(pattern: &[u8], path: &[u8], steps: &mut Steps<L>) -> Compared
    ensures is { IsCompared pattern.now path.now result }
    ensures cost { steps.new ≤ steps.old + compare_cost pattern.now result }
{
    for (i, octet) in pattern.iter().enumerate() {
        steps.tick();
        if *octet == b'*' {
            return Compared::Star(i);
        }
        if *octet == b'$' && i + 1 == pattern.len() {
            return if i == path.len() {
                Compared::Lies
            } else {
                Compared::Differs
            };
        }
        if i == path.len() || path[i] != *octet {
            return Compared::Differs;
        }
    }
    Compared::Lies
}

/// What follows the octet at a place.
fn behind(pattern: &[u8], at: usize) -> &[u8]
    requires { at < length pattern.now }
    ensures { result.now ≡ drop (at + 1) pattern.now }
{
    &pattern[at + 1..]
}

/// The path from the first place on at which the pattern can lie: where it begins with an octet that stands for itself, and is
/// no last octet, that octet's next place. A step is an octet of the path that is passed over.
fn next_place<'a, L: Ledger>(pattern: &[u8], path: &'a [u8], steps: &mut Steps<L>) -> &'a [u8]
    ensures same { AfterRun (LiesOn pattern.now) result.now ↔ AfterRun (LiesOn pattern.now) path.now }
    ensures shorter { length result.now ≤ length path.now }
    ensures cost { steps.new + length result.now ≤ steps.old + length path.now }
{
    if pattern.len() < 2 {
        return path;
    }
    if pattern[0] == b'*' {
        return path;
    }
    let passed = first_of(path, pattern[0]);
    steps.tick_often(passed);
    from(path, passed)
}

/// Whether the pattern lies on the path after some run of octets. Where its octets up to a `*` lie at the first place that
/// serves, no other place serves better, since the `*` takes any run: so no place is tried again.
fn lies_after_run<L: Ledger>(after: &[u8], all: &[u8], steps: &mut Steps<L>) -> bool
    ensures lies { IsTrue result ↔ AfterRun (LiesOn after.now) all.now }
    ensures cost { steps.new ≤ steps.old + (length after.now + 1) * (length all.now + 1) }
{
    let mut pattern = after;
    let mut path = all;
    loop {
        match compare(pattern, path, steps) {
            Compared::Lies => return true,
            Compared::Star(n) => {
                pattern = behind(pattern, n);
                path = from(path, n);
            }
            Compared::Differs => {
                if path.is_empty() {
                    return false;
                }
                path = next_place(pattern, from(path, 1), steps);
            }
        }
    }
}

/// Whether the pattern lies on the path, in at most (m + 1)(n + 1) steps for m octets of the pattern and n of the path. A step is
/// an octet of the pattern that is compared, or one of the path that is passed over.
fn lies_on<L: Ledger>(pattern: &[u8], path: &[u8], steps: &mut Steps<L>) -> bool
    ensures lies { IsTrue result ↔ LiesOn pattern.now path.now }
    ensures cost { steps.new ≤ steps.old + (length pattern.now + 1) * (length path.now + 1) }
{
    match compare(pattern, path, steps) {
        Compared::Lies => true,
        Compared::Differs => false,
        Compared::Star(n) => lies_after_run(behind(pattern, n), from(path, n), steps),
    }
}

/// `lies_on`, with a count of its own.
fn lies_on_counted<L: Ledger>(pattern: &[u8], path: &[u8], blank: Blank) -> bool
    requires name { blank.name ≡ L.name }
    requires parts { blank.parts ≡ L.parts }
    requires some { 1 ≤ blank.parts }
    ensures { IsTrue result ↔ LiesOn pattern.now path.now }
{
    let mut steps = Steps::<L>::new(blank);
    lies_on(pattern, path, &mut steps)
}

/// Whether the pattern matches the path, which stands in the form in which octets are compared.
pub fn matches(pattern: &[u8], path: &[u8]) -> bool
    ensures { IsTrue result ↔ Matches pattern.now path.now }
{
    !pattern.is_empty() && lies_on_counted::<Brand>(pattern, path, Blank::new(1))
}
