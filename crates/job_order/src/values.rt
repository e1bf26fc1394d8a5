// What the values of a table give, read in the order of the settings.
ghost use Rattle.std.specs.Prelude.{◌≡◌, ◌≤◌, None, count_by, length, IfOk, MatchResult};
ghost use Rattle.crawl_kinds.specs.Address.{IsUri};
ghost use Rattle.toml.specs.View.{table_view};
ghost use Rattle.seed_list.specs.Lines.{is_seed_line, lines};
ghost use Rattle.job_spec.specs.Gives.{address_of, settings_in, text_at, text_in};
ghost use Rattle.job_spec.specs.Job.{IsComplete, IsRefusalOf};
ghost use Rattle.job_order.specs.Steps.{AreValuesOf};

use crate::numbers::number_in;
use crate::settings::{agent_at, contact_at, name_at, proxy_at, refuse_number, rules_at, seeds_at};
use crawl_kinds::{Key, Settings, Uri};
use job_spec::{JobFault, Number, Setting};
use scope_spec::Rule;
use std::alloc::Global;
use toml::Table;

/// What the values of a table give.
#[derive(Drop)]
pub(crate) struct Values<'a> {
    pub settings: Settings,
    /// The text of the seed lines.
    pub seeds: &'a str,
    pub rules: Vec<Rule>,
}

/// The settings that are texts.
#[derive(Drop)]
struct Texts {
    name: Key,
    agent: Key,
    contact: Uri,
    proxy: Option<Key>,
}

/// The settings of a job, by those that are texts.
fn settings_of(table: &Table, texts: Texts) -> Settings
    requires name { texts.name ≡ text_in (table_view table.now) Setting.Name }
    requires agent { texts.agent ≡ text_in (table_view table.now) Setting.Agent }
    requires contact { texts.contact ≡ address_of (text_in (table_view table.now) Setting.Contact) }
    requires proxy { texts.proxy ≡ text_at (table_view table.now) Setting.Proxy }
    ensures { result ≡ settings_in (table_view table.now) }
{
    Settings {
        name: texts.name,
        agent: texts.agent,
        contact: texts.contact,
        proxy: texts.proxy,
        workers: number_in(table, Number::Workers) as u32,
        delay_factor: number_in(table, Number::DelayFactor),
        min_delay_ms: number_in(table, Number::MinDelay),
        max_delay_ms: number_in(table, Number::MaxDelay),
        max_crawl_delay_s: number_in(table, Number::MaxCrawlDelay),
        max_tries: number_in(table, Number::MaxTries) as u32,
        retry_delay_s: number_in(table, Number::RetryDelay),
        timeout_ms: number_in(table, Number::Timeout),
        host_budget: number_in(table, Number::HostBudget),
        max_pages: number_in(table, Number::MaxPages),
        max_bytes: number_in(table, Number::MaxBytes),
        max_seconds: number_in(table, Number::MaxSeconds),
        max_keys: number_in(table, Number::MaxKeys),
        max_response_bytes: number_in(table, Number::MaxResponseBytes),
        warc_max_bytes: number_in(table, Number::WarcMaxBytes),
        checkpoint_finishes: number_in(table, Number::CheckpointFinishes),
    }
}

/// What the values of a table give, or its first value that is bad.
pub(crate) fn read_values(alloc: Global, table: &Table) -> Result<Values<'_>, JobFault>
    requires { IsComplete (table_view table.now) }
    ensures read { MatchResult result
        (λ values. AreValuesOf (table_view table.now) values.settings values.seeds.now values.rules.items)
        (IsRefusalOf (table_view table.now)) }
    ensures short { IfOk result (λ values. length values.seeds.now ≤ 1048576) }
    ensures few { IfOk result (λ values. count_by is_seed_line (lines values.seeds.now) ≤ 200000) }
    ensures contact { IfOk result (λ values. IsUri values.settings.contact) }
{
    let name = name_at(alloc, table)?;
    let agent = agent_at(alloc, table)?;
    let contact = contact_at(alloc, table)?;
    let seeds = seeds_at(alloc, table)?;
    let proxy = proxy_at(alloc, table)?;
    refuse_number(alloc, table)?;
    let rules = rules_at(alloc, table)?;
    let texts = Texts {
        name,
        agent,
        contact,
        proxy,
    };
    Ok(Values {
        settings: settings_of(table, texts),
        seeds,
        rules,
    })
}
