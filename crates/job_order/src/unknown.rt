// Names that a job text may not have.
ghost use Rattle.std.specs.Prelude.{◌≡◌, bytes_eq, map, option_copied};
ghost use Rattle.std.specs.List.{list_any};
ghost use Rattle.toml.specs.View.{view, table_view};
ghost use Rattle.job_spec.specs.Settings.{numbers, setting_name, setting_names};
ghost use Rattle.job_spec.specs.RuleNames.{field_name};
ghost use Rattle.job_spec.specs.Unknown.{fields_in, rule_names, unknown_in_entry, unknown_in_rule, unknown_name};
ghost use Rattle.job_order.specs.Known.{known_names};
ghost use Rattle.job_spec.specs.Values.{first_given, is_one_of, least_other};

use crate::names::{NEEDED, NUMBERS, setting_name};
use crate::rule::kind_of;
use crate::rule_names::{FIELDS, field_name, fields_of, kind_field};
use crate::table::entries;
use job_spec::{Field, Kind, Setting};
use toml::{Table, Value};

/// The names that a table may have.
#[derive(Clone, Copy)]
enum Known {
    OfSettings,
    /// Those of a rule, by its kind.
    OfRule(Option<Kind>),
}

/// Whether a name is one of these settings'.
fn is_name_of(settings: &[Setting], name: &str) -> bool
    ensures { result ≡ list_any (λ setting. bytes_eq name.now (setting_name setting)) settings.now }
{
    settings
        .iter()
        .any(|setting| name == setting_name(*setting))
}

/// Whether a name is a number's.
fn is_number_name(name: &str) -> bool
    ensures { result ≡ list_any (λ number. bytes_eq name.now (setting_name (Setting.Number number))) numbers }
{
    NUMBERS
        .iter()
        .any(|number| name == setting_name(Setting::Number(*number)))
}

/// Whether a name is one of a setting.
#[tactic(auto, using(crate::proofs::SettingNames::split_settings))]
fn is_setting_name(name: &str) -> bool
    ensures { result ≡ is_one_of setting_names name.now }
{
    is_name_of(&NEEDED, name)
        || name == setting_name(Setting::Proxy)
        || is_number_name(name)
        || name == setting_name(Setting::Rule)
}

/// The fields that a rule of a kind may have.
fn fields_in(kind: Option<Kind>) -> &'static [Field]
    ensures { result.now ≡ fields_in kind }
{
    match kind {
        Some(kind) => fields_of(kind),
        None => &FIELDS,
    }
}

/// Whether a name is one of these fields'.
fn is_field_name(fields: &[Field], name: &str) -> bool
    ensures { result ≡ list_any (λ field. bytes_eq name.now (field_name field)) fields.now }
{
    fields.iter().any(|field| name == field_name(*field))
}

/// Whether a rule of a kind may have a name.
#[tactic(auto, using(crate::proofs::Tables::any_of_map))]
fn is_rule_name(kind: Option<Kind>, name: &str) -> bool
    ensures { result ≡ is_one_of (rule_names kind) name.now }
{
    name == kind_field() || is_field_name(fields_in(kind), name)
}

/// Whether a table may have a name.
fn is_known(known: Known, name: &str) -> bool
    ensures { result ≡ is_one_of (known_names known) name.now }
{
    match known {
        Known::OfSettings => is_setting_name(name),
        Known::OfRule(kind) => is_rule_name(kind, name),
    }
}

/// The least unknown name of a table, whose names stand in byte order.
fn least_other(table: &Table, known: Known) -> Option<&str>
    ensures { option_copied result ≡ least_other (known_names known) (table_view table.now) }
{
    for name in table.keys() {
        if !is_known(known, name.as_str()) {
            return Some(name.as_str());
        }
    }
    None
}

/// The least unknown name of a rule.
#[tactic(auto, unfolding(job_spec::specs::Unknown::unknown_in_rule, crate::specs::Known::known_names))]
fn unknown_in_rule(rule: &Table) -> Option<&str>
    ensures { option_copied result ≡ unknown_in_rule (table_view rule.now) }
{
    least_other(rule, Known::OfRule(kind_of(rule)))
}

/// The least unknown name of an entry of `rule`.
fn unknown_in_entry(entry: &Value) -> Option<&str>
    ensures { option_copied result ≡ unknown_in_entry (view entry.now) }
{
    match entry.as_table() {
        Some(rule) => unknown_in_rule(rule),
        None => None,
    }
}

/// The least unknown name of the first entry that has one.
fn unknown_in_rules(entries: &[Value]) -> Option<&str>
    ensures { option_copied result ≡ first_given (map unknown_in_entry (map view entries.now)) }
{
    for entry in entries {
        if let Some(name) = unknown_in_entry(entry) {
            return Some(name);
        }
    }
    None
}

/// The least unknown name of the top table, or else of the first rule that has one.
#[tactic(auto, unfolding(job_spec::specs::Unknown::unknown_name, crate::specs::Known::known_names))]
pub(crate) fn unknown_name(table: &Table) -> Option<&str>
    ensures { option_copied result ≡ unknown_name (table_view table.now) }
{
    match least_other(table, Known::OfSettings) {
        Some(name) => Some(name),
        None => unknown_in_rules(entries(table)),
    }
}
