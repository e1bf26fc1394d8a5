// Whether two items are one.
ghost use Rattle.std.specs.Prelude.{◌≡◌, ◌↔◌, IsTrue};

use crawl_kinds::{Item, Uri};

/// Whether two pages that name an item are one, or neither is there.
fn same_via(one: &Option<Uri>, other: &Option<Uri>) -> bool
    ensures { IsTrue result ↔ (one.now ≡ other.now) }
{
    match (one, other) {
        (None, None) => true,
        (Some(one), Some(other)) => one == other,
        _ => false,
    }
}

/// Whether two items are one.
pub fn same_item(one: &Item, other: &Item) -> bool
    ensures { IsTrue result ↔ (one.now ≡ other.now) }
{
    one.key == other.key
        && one.uri == other.uri
        && one.class == other.class
        && one.path == other.path
        && same_via(&one.via, &other.via)
        && one.rank == other.rank
}
