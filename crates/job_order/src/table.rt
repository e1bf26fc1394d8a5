// What stands in a table.
ghost use Rattle.std.specs.Prelude.{◌≡◌, option_map, option_copied, map};
ghost use Rattle.toml.specs.Data.{get_member};
ghost use Rattle.toml.specs.View.{view, table_view};
ghost use Rattle.job_spec.specs.Gives.{text_at};
ghost use Rattle.job_spec.specs.Missing.{lacks};
ghost use Rattle.job_spec.specs.Unknown.{entries};
ghost use Rattle.job_spec.specs.Values.{as_natural};

use crate::names::setting_name;
use job_spec::Setting;
use toml::{Table, Value};

/// The value at a name.
pub(crate) fn value_at<'a>(table: &'a Table, name: &str) -> Option<&'a Value>
    ensures { option_map (λ value. view value.now) result ≡ get_member name.now (table_view table.now) }
{
    table.get(name)
}

/// Whether a table has no such name.
pub(crate) fn lacks(table: &Table, name: &str) -> bool
    ensures { result ≡ lacks (table_view table.now) name.now }
{
    value_at(table, name).is_none()
}

/// The text at a setting.
pub(crate) fn text_at(table: &Table, setting: Setting) -> Option<&str>
    ensures { option_copied result ≡ text_at (table_view table.now) setting }
{
    match value_at(table, setting_name(setting)) {
        Some(value) => value.as_str(),
        None => None,
    }
}

/// An integer that is not negative.
pub(crate) fn natural(value: &Value) -> Option<u64>
    ensures { result ≡ as_natural (view value.now) }
{
    match value.as_integer() {
        Some(number) if number >= 0 => Some(number as u64),
        _ => None,
    }
}

/// The entries of `rule`.
pub(crate) fn entries(table: &Table) -> &[Value]
    ensures { map view result.now ≡ entries (table_view table.now) }
{
    match value_at(table, setting_name(Setting::Rule)) {
        Some(value) => match value.as_array() {
            Some(array) => array.as_slice(),
            None => &[],
        },
        None => &[],
    }
}
