// Discovery paths that grow.
ghost use Rattle.std.specs.Prelude.{◌≡◌, ◌==◌, ◌<◌, ◌∷◌, ◌++◌, [], ℕ, IfOk, IsTrue, string_bytes};
ghost use Rattle.std.specs.List.{list_any};
ghost use Rattle.crawl_kinds.specs.Text.{is_hop, is_text};
ghost use Rattle.crawl_history.specs.Adds.{last_letters, redirect_path, robots_path};
ghost use Rattle.crawl_history.specs.Codes.{prerequisite_letter};

use crate::text::keep;
use crawl_kinds::{HopPath, NoMemory};
use std::alloc::Global;

/// How many letters a path may have.
const MOST_LETTERS: usize = 250;

/// The letters that stay where one more comes behind them.
fn kept_letters(path: &HopPath) -> &str
    ensures last { (letter : ℕ) → result.now ++ letter ∷ [] ≡ last_letters (path.now ++ letter ∷ []) }
    ensures hops { IsTrue (is_text is_hop 250 path.now) }
{
    let letters = path.as_str();
    if letters.len() < MOST_LETTERS {
        letters
    } else {
        &letters[1..]
    }
}

/// A text with one letter more.
fn pushed(alloc: Global, front: &str, letter: u8) -> Result<String, NoMemory>
    requires { letter < 128 }
    ensures { IfOk result (λ text. string_bytes text ≡ front.now ++ letter ∷ []) }
{
    let mut text = String::from_str(alloc, front)?;
    text.push(letter as char)?;
    Ok(text)
}

/// A path with one letter more; of more letters than a path may have, the last ones. It fails for want of memory alone.
pub fn with_letter(alloc: Global, path: &HopPath, letter: u8) -> Result<HopPath, NoMemory>
    requires { IsTrue (is_hop letter) }
    ensures { IfOk result (λ own. own ≡ last_letters (path.now ++ letter ∷ [])) }
{
    let text = pushed(alloc, kept_letters(path), letter)?;
    keep(alloc, text.as_str())
}

/// Whether a path leads to a robots file.
fn has_prerequisite(path: &HopPath) -> bool
    ensures { result ≡ list_any (λ b. b == prerequisite_letter) path.now }
{
    path.as_bytes().contains(&b'P')
}

/// The path to the robots file of an item that was found on a path.
pub fn robots_path(alloc: Global, path: &HopPath) -> Result<HopPath, NoMemory>
    ensures { IfOk result (λ own. own ≡ robots_path path.now) }
{
    with_letter(alloc, path, b'P')
}

/// The path to what a robots file redirects to.
pub fn redirect_path(alloc: Global, path: &HopPath) -> Result<HopPath, NoMemory>
    ensures { IfOk result (λ own. own ≡ redirect_path path.now) }
{
    if has_prerequisite(path) {
        return with_letter(alloc, path, b'R');
    }
    let robots = robots_path(alloc, path)?;
    with_letter(alloc, &robots, b'R')
}
