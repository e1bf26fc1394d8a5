// Items of addresses.
ghost use Rattle.std.specs.Prelude.{◌≡◌, ◌≤◌, ◌<◌, [], None, IfOk, IfSome, length, string_bytes};
ghost use Rattle.crawl_kinds.specs.Address.{IsUri};
ghost use Rattle.crawl_kinds.specs.Text.{is_visible, text_fault};
ghost use Rattle.crawl_history.specs.Adds.{rank_by_letter, rank_of};
ghost use Rattle.journal_valid.specs.Items.{robots_redirects};
ghost use Rattle.uri_form.specs.Named.{IsNamed};
ghost use Rattle.uri_spec.specs.Key.{robots_key};
ghost use Rattle.item_form.specs.Items.{item_on, key_from, redirects_after};

use crate::text::keep;
use crawl_kinds::{ClassKey, HopPath, Item, Key, NoMemory, Uri};
use std::alloc::Global;
use uri_form::{Named, named_uri};

/// How often a robots file was redirected, with one letter more.
fn redirects_after(letter: u8, before: Option<u32>) -> Option<u32>
    requires { IfSome before (λ j. j < 250) }
    ensures { result ≡ redirects_after letter before }
{
    match letter {
        b'P' => Some(0),
        b'R' => match before {
            Some(count) => Some(count + 1),
            None => None,
        },
        _ => before,
    }
}

/// How often a robots file was redirected on a path, where the path leads to one.
fn robots_redirects(path: &[u8]) -> Option<u32>
    requires { length path.now ≤ 250 }
    ensures same { result ≡ robots_redirects path.now }
    ensures few { IfSome result (λ j. j < 251) }
{
    let mut redirects: Option<u32> = None;
    for letter in path {
        redirects = redirects_after(*letter, redirects);
    }
    redirects
}

/// The text of the key of a robots file.
fn robots_text(alloc: Global, redirects: u32, class: &str) -> Result<String, NoMemory>
    ensures { IfOk result (λ text. string_bytes text ≡ robots_key redirects class.now) }
{
    Ok(format!(in alloc; "robots{redirects}:{class}")?)
}

/// The key of a robots file of this class, or else the canonical key.
fn key_from(
    alloc: Global,
    redirects: Option<u32>,
    key: Key,
    class: &ClassKey,
) -> Result<Key, NoMemory>
    requires { IfSome redirects (λ j. text_fault is_visible 2200 (robots_key j class.now) ≡ None) }
    ensures { IfOk result (λ own. own ≡ key_from redirects key class.now) }
{
    let Some(redirects) = redirects else {
        return Ok(key);
    };
    let text = robots_text(alloc, redirects, class.as_str())?;
    keep(alloc, text.as_str())
}

/// 1 after a redirect, 2 for an embed, 3 for all else.
fn rank_by_letter(letter: Option<u8>) -> u8
    ensures { result ≡ rank_by_letter letter }
{
    match letter {
        Some(b'R') => 1,
        Some(b'E') => 2,
        _ => 3,
    }
}

/// 0 for a robots file, else by the last letter of the path.
fn rank_of(key: &[u8], path: &[u8]) -> u8
    ensures { result ≡ rank_of key.now path.now }
{
    if key.starts_with(b"robots") {
        return 0;
    }
    rank_by_letter(path.last().copied())
}

/// An address with its names.
fn named(alloc: Global, uri: &Uri) -> Result<Named, NoMemory>
    requires { IsUri uri.now }
    ensures { IfOk result (IsNamed uri.now) }
{
    match named_uri(alloc, uri.as_str())? {
        Some(named) => Ok(named),
        None => unreachable!(),
    }
}

/// The item of an address that was found on a path, on the page `via`. It fails for want of memory alone.
pub fn item_of(alloc: Global, uri: &Uri, path: HopPath, via: Option<Uri>) -> Result<Item, NoMemory>
    requires { IsUri uri.now }
    ensures { IfOk result (λ item. item ≡ item_on uri.now path via) }
{
    let Named { uri, key, class } = named(alloc, uri)?;
    let key = key_from(alloc, robots_redirects(path.as_bytes()), key, &class)?;
    let rank = rank_of(key.as_bytes(), path.as_bytes());
    Ok(Item {
        key,
        uri,
        class,
        path,
        via,
        rank,
    })
}

/// The item of a seed: its path is empty, and no page names it. It fails for want of memory alone.
pub fn seed_item(alloc: Global, uri: &Uri) -> Result<Item, NoMemory>
    requires { IsUri uri.now }
    ensures { IfOk result (λ item. item ≡ item_on uri.now [] None) }
{
    let path = keep(alloc, "")?;
    item_of(alloc, uri, path, None)
}
