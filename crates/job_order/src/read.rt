// How a job text is read.
ghost use Rattle.std.specs.Prelude.{◌≡◌, ◌≤◌, ◌≢◌, None, All, List, ℕ, count_by, length, IfOk, MatchResult};
ghost use Rattle.crawl_kinds.specs.Address.{IsUri};
ghost use Rattle.toml.specs.View.{table_view};
ghost use Rattle.scope_spec.specs.Decision.{first_bad};
ghost use Rattle.seed_list.specs.Bad.{IsBadLine, IsRefused};
ghost use Rattle.seed_list.specs.Lines.{is_seed_line, lines};
ghost use Rattle.seed_list.specs.Listing.{IsListOf};
ghost use Rattle.job_spec.specs.Gives.{seeds_text};
ghost use Rattle.job_spec.specs.Job.{HasKnownNames, IsComplete, IsJobOf, IsJobOfTable, IsRefusal, IsRefusalOf, IsTextOf, IsWithinRanges, HasGoodSeeds};
ghost use Rattle.job_spec.specs.Missing.{missing_name};
ghost use Rattle.job_spec.specs.Rules.{rules_in};
ghost use Rattle.job_spec.specs.Unknown.{unknown_name};

use crate::missing::first_missing;
use crate::names::setting_name;
use crate::settings::{MOST_TEXT, name_of};
use crate::unknown::unknown_name;
use crate::values::read_values;
use crawl_kinds::{NoMemory, Settings, Uris};
use job_spec::{JobFault, Setting};
use scope_rules::{Scope, ScopeFault};
use scope_spec::Rule;
use seed_list::{SeedFault, SeedList, read_seed_list};
use std::alloc::Global;
use std::str;
use toml::Table;
use uri_form::Surt;

/// A job: its settings, its seeds in the order of their lines, and the scope of its rules with the prefixes that its seed
/// lines make.
#[derive(Drop)]
pub struct Job {
    pub settings: Settings,
    pub seeds: Uris,
    pub scope: Scope,
}

/// The table of a text.
#[tactic(auto, unfolding(job_spec::specs::Job::IsRefusal))]
fn read_table(alloc: Global, bytes: &[u8]) -> Result<Table, JobFault>
    ensures { MatchResult result (λ table. IsTextOf bytes.now (table_view table)) (IsRefusal bytes.now) }
{
    if bytes.len() > MOST_TEXT {
        return Err(JobFault::TooLong);
    }
    let Ok(text) = str::from_utf8(bytes) else {
        return Err(JobFault::NotToml);
    };
    match toml::table_from_str(alloc, text) {
        Ok(table) => Ok(table),
        Err(error) if error.is_memory() => Err(JobFault::NoMemory),
        Err(_) => Err(JobFault::NotToml),
    }
}

/// Refuses the least unknown name.
#[tactic(auto, unfolding(job_spec::specs::Job::IsRefusalOf))]
fn refuse_unknown(alloc: Global, table: &Table) -> Result<(), JobFault>
    ensures { MatchResult result (λ _. HasKnownNames (table_view table.now)) (IsRefusalOf (table_view table.now)) }
{
    match unknown_name(table) {
        Some(name) => Err(JobFault::UnknownName {
            name: name_of(alloc, name)?,
        }),
        None => Ok(()),
    }
}

/// Refuses the first name that is missing.
#[tactic(auto, unfolding(job_spec::specs::Job::IsRefusalOf, job_spec::specs::Missing::missing_name))]
fn refuse_missing(alloc: Global, table: &Table) -> Result<(), JobFault>
    requires { HasKnownNames (table_view table.now) }
    ensures { MatchResult result (λ _. IsComplete (table_view table.now)) (IsRefusalOf (table_view table.now)) }
{
    match first_missing(table) {
        Some(setting) => Err(JobFault::Missing {
            name: name_of(alloc, setting_name(setting))?,
        }),
        None => Ok(()),
    }
}

/// The seeds and prefixes of the seed lines of a table.
#[tactic(auto, unfolding(job_spec::specs::Job::IsRefusalOf))]
fn seeds_of(alloc: Global, table: &Table, text: &str) -> Result<SeedList, JobFault>
    requires same { text.now ≡ seeds_text (table_view table.now) }
    requires length { length text.now ≤ 1048576 }
    requires few { count_by is_seed_line (lines text.now) ≤ 200000 }
    requires values { IsWithinRanges (table_view table.now) }
    ensures { MatchResult result (λ list. IsListOf list (lines (seeds_text (table_view table.now)))) (IsRefusalOf (table_view table.now)) }
{
    match read_seed_list(alloc, text) {
        Ok(list) => Ok(list),
        Err(SeedFault::BadSeed { line }) => Err(JobFault::BadSeed { line }),
        Err(SeedFault::NoMemory) => Err(JobFault::NoMemory),
        Err(SeedFault::TooLong) => unreachable!(),
    }
}

/// The scope of the rules of a table.
#[tactic(auto, unfolding(job_spec::specs::Job::IsRefusalOf))]
fn scope_of(
    alloc: Global,
    table: &Table,
    rules: Vec<Rule>,
    prefixes: Vec<Surt>,
) -> Result<Scope, JobFault>
    requires same { rules.items ≡ rules_in (table_view table.now) }
    requires seeds { HasGoodSeeds (table_view table.now) }
    ensures made { MatchResult result (λ scope. scope ≡ record { rules = rules_in (table_view table.now); seeds = prefixes.items })
        (IsRefusalOf (table_view table.now)) }
    ensures good { IfOk result (λ _. first_bad (rules_in (table_view table.now)) ≡ None) }
{
    match Scope::build(alloc, rules, prefixes) {
        Ok(scope) => Ok(scope),
        Err(ScopeFault::BadPattern { index }) => Err(JobFault::BadPattern { index }),
        Err(ScopeFault::NoMemory) => Err(JobFault::NoMemory),
    }
}

/// The job of a table whose names are all there.
fn job_of(alloc: Global, table: &Table) -> Result<Job, JobFault>
    requires { IsComplete (table_view table.now) }
    ensures job { MatchResult result (λ job. IsJobOfTable (table_view table.now) job.settings job.seeds job.scope)
        (IsRefusalOf (table_view table.now)) }
    ensures addresses { IfOk result (λ job. All IsUri job.seeds × IsUri job.settings.contact) }
{
    let values = read_values(alloc, table)?;
    let list = seeds_of(alloc, table, values.seeds)?;
    let scope = scope_of(alloc, table, values.rules, list.prefixes.into_vec())?;
    Ok(Job {
        settings: values.settings,
        seeds: list.seeds,
        scope,
    })
}

impl Job {
    /// Reads a job text: a TOML document (TOML 1.1) of at most 1,048,576 bytes. `TooLong`, `NotToml`, `UnknownName`,
    /// `Missing`, `OutOfRange`, `BadSeed` and `BadPattern` are answered in this order, the first that holds; what each
    /// means stands at `JobFault`. For want of memory `NoMemory` may come in place of any answer.
    pub fn read(alloc: Global, text: &[u8]) -> Result<Job, JobFault>
        ensures job { MatchResult result (λ job. IsJobOf text.now job.settings job.seeds job.scope) (IsRefusal text.now) }
        ensures addresses { IfOk result (λ job. All IsUri job.seeds × IsUri job.settings.contact) }
    {
        let table = read_table(alloc, text)?;
        refuse_unknown(alloc, &table)?;
        refuse_missing(alloc, &table)?;
        job_of(alloc, &table)
    }
}
