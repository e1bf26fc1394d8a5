// The rules that tables write.
ghost use Rattle.std.specs.Prelude.{◌≡◌, [], false, IfOk};
ghost use Rattle.toml.specs.Data.{as_str, as_bool};
ghost use Rattle.toml.specs.View.{view, table_view};
ghost use Rattle.job_spec.specs.Rules.{answer_named, as_answer, as_limit, as_list, as_surt, given, given_or, kind_of, rule_in, rule_of};

use crate::list::{Element, list_at};
use crate::rule_names::{field_name, kind_field, kind_named};
use crate::table::{natural, value_at};
use crawl_kinds::{Listed, NoMemory, TextFault};
use job_spec::{Field, Kind};
use scope_spec::{Decision, FreeText, Rule};
use std::alloc::Global;
use toml::{Table, Value};
use uri_form::Surt;

/// The kind of a rule, where its `kind` is one.
pub(crate) fn kind_of(rule: &Table) -> Option<Kind>
    ensures { result ≡ kind_of (table_view rule.now) }
{
    let value = value_at(rule, kind_field())?;
    let name = value.as_str()?;
    kind_named(name)
}

#[tactic(auto, unfolding(job_spec::specs::Rules::answer_named))]
fn answer_named(name: &str) -> Option<Decision>
    ensures { result ≡ answer_named name.now }
{
    if name == "accept" {
        return Some(Decision::Accept);
    }
    if name == "reject" {
        return Some(Decision::Reject);
    }
    None
}

/// The answer of a rule.
fn answer_at(rule: &Table) -> Option<Decision>
    ensures { result ≡ given (table_view rule.now) Field.Answer as_answer }
{
    let value = value_at(rule, field_name(Field::Answer))?;
    let name = value.as_str()?;
    answer_named(name)
}

/// A number of a rule.
fn limit_at(rule: &Table, field: Field) -> Option<u32>
    ensures { result ≡ given (table_view rule.now) field as_limit }
{
    let value = value_at(rule, field_name(field))?;
    match natural(value) {
        Some(limit) if limit <= 1000 => Some(limit as u32),
        _ => None,
    }
}

/// Whether a rule looks at the prefixes of seeds.
fn seeds_at(rule: &Table) -> Option<bool>
    ensures { result ≡ given_or false (table_view rule.now) Field.Seeds as_bool }
{
    match value_at(rule, field_name(Field::Seeds)) {
        Some(value) => value.as_bool(),
        None => Some(false),
    }
}

/// The texts at a field.
fn texts_at(alloc: Global, rule: &Table, field: Field) -> Result<Option<Listed<FreeText>>, NoMemory>
    ensures { IfOk result (λ texts. texts ≡ given (table_view rule.now) field (as_list as_str)) }
{
    match value_at(rule, field_name(field)) {
        Some(value) => list_at(alloc, value),
        None => Ok(None),
    }
}

/// The prefixes of a rule.
fn prefixes_at(alloc: Global, rule: &Table) -> Result<Option<Listed<Surt>>, NoMemory>
    ensures { IfOk result (λ prefixes. prefixes ≡ given_or [] (table_view rule.now) Field.Prefixes (as_list as_surt)) }
{
    match value_at(rule, field_name(Field::Prefixes)) {
        Some(value) => list_at(alloc, value),
        None => Ok(Some(Listed::new(alloc))),
    }
}

/// A free text.
pub(crate) fn free_text(alloc: Global, text: &str) -> Result<FreeText, NoMemory>
    ensures { IfOk result (λ own. own ≡ text.now) }
{
    // The length of a slice fits, which the proof reads here.
    let _bytes = text.as_bytes();
    match FreeText::new(alloc, text) {
        Ok(own) => Ok(own),
        Err(TextFault::NoMemory) => Err(NoMemory),
        Err(TextFault::TooLong { .. }) => unreachable!(),
        Err(TextFault::BadByte { .. }) => unreachable!(),
    }
}

impl Element for FreeText {
    ghost use Rattle.toml.specs.Data.{as_str};

    ghost reads = { as_str };

    fn of(alloc: Global, value: &Value) -> Result<Option<Self>, NoMemory> {
        match value.as_str() {
            Some(text) => Ok(Some(free_text(alloc, text)?)),
            None => Ok(None),
        }
    }
}

impl Element for Surt {
    ghost use Rattle.job_spec.specs.Rules.{as_surt};

    ghost reads = { as_surt };

    #[tactic(auto, unfolding(job_spec::specs::Texts::is_surt))]
    fn of(alloc: Global, value: &Value) -> Result<Option<Self>, NoMemory> {
        let Some(text) = value.as_str() else {
            return Ok(None);
        };
        match Surt::new(alloc, text) {
            Ok(own) => Ok(Some(own)),
            Err(TextFault::NoMemory) => Err(NoMemory),
            Err(TextFault::TooLong { .. }) => Ok(None),
            Err(TextFault::BadByte { .. }) => Ok(None),
        }
    }
}

impl Element for Rule {
    ghost use Rattle.job_spec.specs.Rules.{rule_in};

    ghost reads = { rule_in };

    #[tactic(auto, unfolding(job_spec::specs::Rules::rule_in))]
    fn of(alloc: Global, value: &Value) -> Result<Option<Self>, NoMemory> {
        let Some(rule) = value.as_table() else {
            return Ok(None);
        };
        match kind_of(rule) {
            Some(kind) => rule_of(alloc, kind, rule),
            None => Ok(None),
        }
    }
}

#[tactic(auto, unfolding(job_spec::specs::Rules::rule_of))]
fn surts_rule(alloc: Global, rule: &Table) -> Result<Option<Rule>, NoMemory>
    ensures { IfOk result (λ own. own ≡ rule_of Kind.Surts (table_view rule.now)) }
{
    let Some(answer) = answer_at(rule) else {
        return Ok(None);
    };
    let Some(prefixes) = prefixes_at(alloc, rule)? else {
        return Ok(None);
    };
    let Some(seeds) = seeds_at(rule) else {
        return Ok(None);
    };
    Ok(Some(Rule::Surts {
        answer,
        prefixes,
        seeds,
    }))
}

#[tactic(auto, unfolding(job_spec::specs::Rules::rule_of))]
fn transclusion_rule(rule: &Table) -> Option<Rule>
    ensures { result ≡ rule_of Kind.Transclusion (table_view rule.now) }
{
    let max = limit_at(rule, Field::Max)?;
    let speculative = limit_at(rule, Field::Speculative)?;
    Some(Rule::Transclusion { max, speculative })
}

#[tactic(auto, unfolding(job_spec::specs::Rules::rule_of))]
fn regex_rule(alloc: Global, rule: &Table) -> Result<Option<Rule>, NoMemory>
    ensures { IfOk result (λ own. own ≡ rule_of Kind.Regex (table_view rule.now)) }
{
    let Some(answer) = answer_at(rule) else {
        return Ok(None);
    };
    let Some(patterns) = texts_at(alloc, rule, Field::Patterns)? else {
        return Ok(None);
    };
    Ok(Some(Rule::Regex { answer, patterns }))
}

#[tactic(auto, unfolding(job_spec::specs::Rules::rule_of))]
fn schemes_rule(alloc: Global, rule: &Table) -> Result<Option<Rule>, NoMemory>
    ensures { IfOk result (λ own. own ≡ rule_of Kind.Schemes (table_view rule.now)) }
{
    let Some(names) = texts_at(alloc, rule, Field::Names)? else {
        return Ok(None);
    };
    Ok(Some(Rule::Schemes { names }))
}

/// The rule of a kind that a table writes.
#[tactic(auto, unfolding(job_spec::specs::Rules::rule_of))]
fn rule_of(alloc: Global, kind: Kind, rule: &Table) -> Result<Option<Rule>, NoMemory>
    ensures { IfOk result (λ own. own ≡ rule_of kind (table_view rule.now)) }
{
    match kind {
        Kind::Accept => Ok(Some(Rule::Accept)),
        Kind::Reject => Ok(Some(Rule::Reject)),
        Kind::Surts => surts_rule(alloc, rule),
        Kind::Transclusion => Ok(transclusion_rule(rule)),
        Kind::Regex => regex_rule(alloc, rule),
        Kind::Schemes => schemes_rule(alloc, rule),
        Kind::Hops => Ok(limit_at(rule, Field::Max).map(|max| Rule::Hops { max })),
        Kind::Pathological => Ok(limit_at(rule, Field::Max).map(|max| Rule::Pathological { max })),
        Kind::Segments => Ok(limit_at(rule, Field::Max).map(|max| Rule::Segments { max })),
    }
}
