// What a job text has to give and does not.
ghost use Rattle.std.specs.Prelude.{◌≡◌, ◌∷◌, ◌++◌, [], find};
ghost use Rattle.std.specs.List.{list_any};
ghost use Rattle.toml.specs.View.{view, table_view};
ghost use Rattle.job_spec.specs.Missing.{is_lacking, is_missing, lacks, lacks_needed, needed_by};
ghost use Rattle.job_spec.specs.Settings.{needed, setting_name};
ghost use Rattle.job_spec.specs.RuleNames.{field_name};

use crate::names::{NEEDED, setting_name};
use crate::rule::kind_of;
use crate::rule_names::{field_name, kind_field, needed_of};
use crate::table::{entries, lacks};
use job_spec::{Field, Kind, Setting};
use toml::{Table, Value};

/// What a rule needs beside its kind.
fn needed_by(kind: Option<Kind>) -> &'static [Field]
    ensures { result.now ≡ needed_by kind }
{
    match kind {
        Some(kind) => needed_of(kind),
        None => &[],
    }
}

/// Whether a rule lacks one of these fields.
fn lacks_any(rule: &Table, fields: &[Field]) -> bool
    ensures { result ≡ list_any (λ field. lacks (table_view rule.now) (field_name field)) fields.now }
{
    fields.iter().any(|field| lacks(rule, field_name(*field)))
}

/// Whether a rule has no kind, or not all that its kind needs.
#[tactic(auto, unfolding(job_spec::specs::Missing::lacks_needed))]
fn lacks_needed(rule: &Table) -> bool
    ensures { result ≡ lacks_needed (table_view rule.now) }
{
    lacks(rule, kind_field()) || lacks_any(rule, needed_by(kind_of(rule)))
}

/// Whether an entry is a table that lacks what it needs.
fn is_lacking(entry: &Value) -> bool
    ensures { result ≡ is_lacking (view entry.now) }
{
    match entry.as_table() {
        Some(rule) => lacks_needed(rule),
        None => false,
    }
}

/// Whether an entry is such a table.
fn any_is_lacking(entries: &[Value]) -> bool
    ensures { result ≡ list_any (λ entry. is_lacking (view entry)) entries.now }
{
    entries.iter().any(|entry| is_lacking(entry))
}

/// The first name that is missing of those that a job has to give.
fn first_needed(table: &Table) -> Option<Setting>
    ensures { result ≡ find (λ setting. lacks (table_view table.now) (setting_name setting)) needed }
{
    NEEDED
        .iter()
        .copied()
        .find(|setting| lacks(table, setting_name(*setting)))
}

/// The first setting that is missing.
pub(crate) fn first_missing(table: &Table) -> Option<Setting>
    ensures { result ≡ find (is_missing (table_view table.now)) (needed ++ Setting.Rule ∷ []) }
{
    if let Some(setting) = first_needed(table) {
        return Some(setting);
    }
    if any_is_lacking(entries(table)) {
        return Some(Setting::Rule);
    }
    None
}
