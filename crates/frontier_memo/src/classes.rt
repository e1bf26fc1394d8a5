// Maps whose entries are written over, with no memory.
ghost use Rattle.std.specs.Prelude.{◌≡◌, ℕ, List, OnOk, is_some, true, unwrap_or, option_map, bytes_eq, if◌then◌else◌};
ghost use Rattle.frontier_memo.specs.Sums.{class_at};

use crawl_kinds::{ClassKey, Copied, NoMemory, Text, TextForm};
use std::collections::BTreeMap;
use std::mem;

/// Writes a value over what is kept under a key, and hands that out; where nothing is, nothing is written.
pub fn overwrite<F: TextForm, V: Drop>(
    map: &mut BTreeMap<Text<F>, V>,
    key: &Text<F>,
    value: V,
) -> Option<V>
    ensures written { (q : List ℕ) → class_at map.new q
        ≡ (if bytes_eq key.now q then option_map (λ _. value) (class_at map.old q) else class_at map.old q) }
    ensures before { result ≡ class_at map.old key.now }
{
    let kept = map.get_mut(key)?;
    Some(mem::replace(kept, value))
}

/// Makes sure that something is kept of a class: `none` where nothing was.
pub fn make_room<V: Drop>(
    map: &mut BTreeMap<ClassKey, V>,
    class: &ClassKey,
    none: V,
) -> Result<(), NoMemory>
    ensures room { OnOk result (is_some (class_at map.new class.now) ≡ true) }
    ensures same { (q : List ℕ) → unwrap_or (class_at map.new q) none ≡ unwrap_or (class_at map.old q) none }
{
    if !map.contains_key(class) {
        map.insert(class.copy()?, none)?;
    }
    Ok(())
}
