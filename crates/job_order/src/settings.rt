// The settings of a job, read in their order up to the first that is bad.
ghost use Rattle.std.specs.Prelude.{◌≡◌, ◌≤◌, ◌∷◌, [], true, false, codes, count_by, length, IfOk, MatchResult, None, Some};
ghost use Rattle.crawl_kinds.specs.Address.{IsUri};
ghost use Rattle.toml.specs.Data.{Members};
ghost use Rattle.toml.specs.View.{table_view};
ghost use Rattle.seed_list.specs.Lines.{is_seed_line, lines};
ghost use Rattle.job_spec.specs.Gives.{address_of, seeds_text, settings_in, text_at, text_in};
ghost use Rattle.job_spec.specs.Missing.{lacks};
ghost use Rattle.job_spec.specs.OutOfRange.{is_bad, seed_limit};
ghost use Rattle.job_spec.specs.Rules.{default_rules, or_defaults, rules_in};
ghost use Rattle.job_spec.specs.declared.setting.Number.{Number};
ghost use Rattle.job_spec.specs.Settings.{setting_name};
ghost use Rattle.job_order.specs.Steps.{IsFaultAt, Takes, bad_number};

use crate::list::list_at;
use crate::names::setting_name;
use crate::numbers::{first_bad, number_in};
use crate::rule::free_text;
use crate::table::{text_at, value_at};
use crate::texts::{is_agent, is_name, is_proxy, key_of};
use crawl_kinds::{Key, Listed, NoMemory, Settings, Uri};
use job_spec::{JobFault, Name, Number, Setting};
use scope_spec::{Decision, FreeText, Rule};
use seed_list::count_seeds;
use std::alloc::Global;
use toml::Table;
use uri_form::{UriFault, parse_uri};

/// The most bytes of a text.
pub(crate) const MOST_TEXT: usize = 1_048_576;

/// The most seeds of a job.
const MOST_SEEDS: u64 = 200_000;

/// A name in a refusal.
pub(crate) fn name_of(alloc: Global, name: &str) -> Result<Name, NoMemory>
    ensures { IfOk result (λ own. own ≡ name.now) }
{
    Ok(Name::from(name.as_bytes().to_vec(alloc)?))
}

/// The fault of a setting that does not take its value.
fn bad(alloc: Global, setting: Setting) -> JobFault
    ensures { (table : Members) → is_bad table setting ≡ true → IsFaultAt table setting result }
{
    match name_of(alloc, setting_name(setting)) {
        Ok(name) => JobFault::OutOfRange { name },
        Err(NoMemory) => JobFault::NoMemory,
    }
}

/// The job's name.
pub(crate) fn name_at(alloc: Global, table: &Table) -> Result<Key, JobFault>
    requires { lacks (table_view table.now) (setting_name Setting.Name) ≡ false }
    ensures { Takes (table_view table.now) Setting.Name (λ key. key ≡ text_in (table_view table.now) Setting.Name) result }
{
    let Some(text) = text_at(table, Setting::Name) else {
        return Err(bad(alloc, Setting::Name));
    };
    if !is_name(text) {
        return Err(bad(alloc, Setting::Name));
    }
    Ok(key_of(alloc, text)?)
}

/// The product token.
pub(crate) fn agent_at(alloc: Global, table: &Table) -> Result<Key, JobFault>
    requires { lacks (table_view table.now) (setting_name Setting.Agent) ≡ false }
    ensures { Takes (table_view table.now) Setting.Agent (λ key. key ≡ text_in (table_view table.now) Setting.Agent) result }
{
    let Some(text) = text_at(table, Setting::Agent) else {
        return Err(bad(alloc, Setting::Agent));
    };
    if !is_agent(text) {
        return Err(bad(alloc, Setting::Agent));
    }
    Ok(key_of(alloc, text)?)
}

/// The address at which the operator is reached.
pub(crate) fn contact_at(alloc: Global, table: &Table) -> Result<Uri, JobFault>
    requires { lacks (table_view table.now) (setting_name Setting.Contact) ≡ false }
    ensures takes { Takes (table_view table.now) Setting.Contact
        (λ uri. uri ≡ address_of (text_in (table_view table.now) Setting.Contact)) result }
    ensures address { IfOk result IsUri }
{
    let Some(text) = text_at(table, Setting::Contact) else {
        return Err(bad(alloc, Setting::Contact));
    };
    match parse_uri(alloc, text) {
        Ok(uri) => Ok(uri),
        Err(UriFault::NoMemory) => Err(JobFault::NoMemory),
        Err(UriFault::TooLong { .. }) => Err(bad(alloc, Setting::Contact)),
        Err(UriFault::NotAUri) => Err(bad(alloc, Setting::Contact)),
        Err(UriFault::OtherScheme) => Err(bad(alloc, Setting::Contact)),
    }
}

/// The most seed lines that a job may have: no more than keys.
#[tactic(auto, unfolding(job_spec::specs::OutOfRange::seed_limit))]
fn seed_limit(table: &Table) -> u64
    ensures { result ≡ seed_limit (table_view table.now) }
{
    MOST_SEEDS.min(number_in(table, Number::MaxKeys))
}

/// The text of the seed lines.
pub(crate) fn seeds_at(alloc: Global, table: &Table) -> Result<&str, JobFault>
    requires { lacks (table_view table.now) (setting_name Setting.Seeds) ≡ false }
    ensures { Takes (table_view table.now) Setting.Seeds
        (λ text. (text.now ≡ seeds_text (table_view table.now)) × (length text.now ≤ 1048576)
        × (count_by is_seed_line (lines text.now) ≤ 200000)) result }
{
    let Some(text) = text_at(table, Setting::Seeds) else {
        return Err(bad(alloc, Setting::Seeds));
    };
    if text.len() > MOST_TEXT {
        return Err(bad(alloc, Setting::Seeds));
    }
    if count_seeds(text.as_bytes()) as u64 > seed_limit(table) {
        return Err(bad(alloc, Setting::Seeds));
    }
    Ok(text)
}

/// The proxy, where one is given.
pub(crate) fn proxy_at(alloc: Global, table: &Table) -> Result<Option<Key>, JobFault>
    ensures { Takes (table_view table.now) Setting.Proxy (λ proxy. proxy ≡ text_at (table_view table.now) Setting.Proxy) result }
{
    let Some(value) = value_at(table, setting_name(Setting::Proxy)) else {
        return Ok(None);
    };
    let Some(text) = value.as_str() else {
        return Err(bad(alloc, Setting::Proxy));
    };
    if !is_proxy(text) {
        return Err(bad(alloc, Setting::Proxy));
    }
    Ok(Some(key_of(alloc, text)?))
}

/// Refuses the first number that is not in its range.
pub(crate) fn refuse_number(alloc: Global, table: &Table) -> Result<(), JobFault>
    ensures { MatchResult result (λ _. bad_number (table_view table.now) ≡ None)
        (λ fault. (number : Number) × (bad_number (table_view table.now) ≡ Some number)
        × IsFaultAt (table_view table.now) (Setting.Number number) fault) }
{
    match first_bad(table) {
        Some(number) => Err(bad(alloc, Setting::Number(number))),
        None => Ok(()),
    }
}

/// The schemes that the default rules accept.
fn default_schemes(alloc: Global) -> Result<Listed<FreeText>, NoMemory>
    ensures { IfOk result (λ names. names ≡ codes "http" ∷ codes "https" ∷ []) }
{
    let mut names = Listed::new(alloc);
    names.push(free_text(alloc, "http")?)?;
    names.push(free_text(alloc, "https")?)?;
    Ok(names)
}

/// The rules where a job has none.
fn default_rules(alloc: Global) -> Result<Vec<Rule>, NoMemory>
    ensures { IfOk result (λ rules. rules.items ≡ default_rules) }
{
    let names = default_schemes(alloc)?;
    let mut rules = Vec::new(alloc);
    rules.push(Rule::Reject)?;
    rules.push(Rule::Surts {
        answer: Decision::Accept,
        prefixes: Listed::new(alloc),
        seeds: true,
    })?;
    rules.push(Rule::Hops { max: 20 })?;
    rules.push(Rule::Transclusion {
        max: 2,
        speculative: 1,
    })?;
    rules.push(Rule::Pathological { max: 2 })?;
    rules.push(Rule::Segments { max: 20 })?;
    rules.push(Rule::Schemes { names })?;
    Ok(rules)
}

/// These rules, or the defaults where there is none.
fn or_defaults(alloc: Global, rules: Listed<Rule>) -> Result<Vec<Rule>, NoMemory>
    ensures { IfOk result (λ own. own.items ≡ or_defaults rules) }
{
    if rules.as_slice().is_empty() {
        return default_rules(alloc);
    }
    Ok(rules.into_vec())
}

/// The rules.
pub(crate) fn rules_at(alloc: Global, table: &Table) -> Result<Vec<Rule>, JobFault>
    ensures { Takes (table_view table.now) Setting.Rule (λ rules. rules.items ≡ rules_in (table_view table.now)) result }
{
    let Some(value) = value_at(table, setting_name(Setting::Rule)) else {
        return Ok(default_rules(alloc)?);
    };
    let Some(rules) = list_at::<Rule>(alloc, value)? else {
        return Err(bad(alloc, Setting::Rule));
    };
    Ok(or_defaults(alloc, rules)?)
}
