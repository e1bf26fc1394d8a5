// Items: what follows from an address and a path.
ghost use Rattle.std.specs.Prelude.{◌≡◌, ◌≤◌, ◌<◌, IfOk, IsTrue, IfSome, length, string_bytes};
ghost use Rattle.crawl_kinds.specs.Text.{is_text, is_visible, is_hop};
ghost use Rattle.uri_spec.specs.Key.{robots_key};
ghost use Rattle.uri_form.specs.Named.{IsNamed};
ghost use Rattle.journal_valid.specs.Items.{IsAddress, rank_of, robots_redirects};
ghost use Rattle.journal_read.specs.Reading.{Reads};
ghost use Rattle.journal_read.specs.Items.{IsItemOf, key_from, redirects_after};

use crate::fault::Misread;
use crawl_kinds::{ClassKey, HopPath, Item, Key, NoMemory, Text, TextFault, Uri};
use std::alloc::Global;
use uri_form::Named;

/// How often a robots file was redirected, with one letter more.
fn redirects_after(letter: u8, before: Option<u32>) -> Option<u32>
    requires { IfSome before (λ j. j < 250) }
    ensures { result ≡ redirects_after letter before }
{
    match letter {
        b'P' => Some(0),
        b'R' => match before {
            Some(count) => Some(count + 1),
            None => None,
        },
        _ => before,
    }
}

/// How often a robots file was redirected on a path, where the path leads to one.
pub fn robots_redirects(path: &[u8]) -> Option<u32>
    requires { length path.now ≤ 250 }
    ensures { result ≡ robots_redirects path.now }
{
    let mut redirects: Option<u32> = None;
    for letter in path {
        redirects = redirects_after(*letter, redirects);
    }
    redirects
}

/// The rank of a key and a path.
fn rank_of(key: &[u8], path: &[u8]) -> u8
    ensures { result ≡ rank_of key.now path.now }
{
    if key.starts_with(b"robots") {
        return 0;
    }
    if path.ends_with(b"R") {
        return 1;
    }
    if path.ends_with(b"E") {
        return 2;
    }
    3
}

/// The text of the key of a robots file.
fn robots_text(alloc: Global, redirects: u32, class: &str) -> Result<String, NoMemory>
    ensures { IfOk result (λ text. string_bytes text ≡ robots_key redirects class.now) }
{
    Ok(format!(in alloc; "robots{redirects}:{class}")?)
}

/// The key of an address that was found on a path.
fn key_of(alloc: Global, key: Key, class: &ClassKey, redirects: Option<u32>) -> Result<Key, Misread>
    ensures { Reads (λ own. (own ≡ key_from redirects key class.now) × IsTrue (is_text is_visible 2200 own)) result }
{
    let Some(redirects) = redirects else {
        return Ok(key);
    };
    let text = robots_text(alloc, redirects, class.as_str())?;
    match Text::new(alloc, text.as_str()) {
        Ok(key) => Ok(key),
        Err(TextFault::NoMemory) => Err(Misread::NoMemory),
        Err(_) => Err(Misread::Bad),
    }
}

/// The item of an address that was found on a path, on the page `via`.
pub fn item_of(
    alloc: Global,
    named: Named,
    path: HopPath,
    via: Option<Uri>,
) -> Result<Item, Misread>
    requires uri { IsAddress named.uri }
    requires named { IsNamed named.uri named }
    requires path { IsTrue (is_text is_hop 250 path) }
    requires via { IfSome via IsAddress }
    ensures { Reads (λ item. IsItemOf named.uri path via item) result }
{
    let Named { uri, key, class } = named;
    let key = key_of(alloc, key, &class, robots_redirects(path.as_bytes()))?;
    let rank = rank_of(key.as_bytes(), path.as_bytes());
    Ok(Item {
        key,
        uri,
        class,
        path,
        via,
        rank,
    })
}
