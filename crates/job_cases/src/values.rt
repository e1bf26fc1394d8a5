// What words ask of a job.
use crawl_kinds::{HopPath, Settings, Uri};
use job_order::Job;
use scope_rules::{Candidate, Decision, Scope, decide};
use std::alloc::Global;
use std::test::Fail;
use uri_form::{parse_uri, surt};

/// The number of this name.
pub fn number_of(own: &Settings, name: &str) -> Option<u64> {
    match name {
        "workers" => Some(u64::from(own.workers)),
        "delay_factor" => Some(own.delay_factor),
        "min_delay_ms" => Some(own.min_delay_ms),
        "max_delay_ms" => Some(own.max_delay_ms),
        "max_crawl_delay_s" => Some(own.max_crawl_delay_s),
        "max_tries" => Some(u64::from(own.max_tries)),
        "retry_delay_s" => Some(own.retry_delay_s),
        "timeout_ms" => Some(own.timeout_ms),
        _ => limit_of(own, name),
    }
}

/// The limit of this name.
fn limit_of(own: &Settings, name: &str) -> Option<u64> {
    match name {
        "host_budget" => Some(own.host_budget),
        "max_pages" => Some(own.max_pages),
        "max_bytes" => Some(own.max_bytes),
        "max_seconds" => Some(own.max_seconds),
        "max_keys" => Some(own.max_keys),
        "max_response_bytes" => Some(own.max_response_bytes),
        "warc_max_bytes" => Some(own.warc_max_bytes),
        "checkpoint_finishes" => Some(own.checkpoint_finishes),
        _ => None,
    }
}

/// The seeds, a comma between each two.
fn listed(alloc: Global, seeds: &[Uri]) -> Result<String, Fail> {
    let mut text = String::new(alloc);
    for seed in seeds {
        if !text.is_empty() {
            text.push(',')?;
        }
        text.push_str(seed.as_str())?;
    }
    Ok(text)
}

/// The text of this name.
pub fn text_of(alloc: Global, job: &Job, name: &str) -> Result<String, Fail> {
    match name {
        "name" => Ok(job.settings.name.to_string(alloc)?),
        "agent" => Ok(job.settings.agent.to_string(alloc)?),
        "contact" => Ok(job.settings.contact.to_string(alloc)?),
        "proxy" => proxy_of(alloc, &job.settings),
        "seeds" => listed(alloc, job.seeds.as_slice()),
        _ => Err(Fail::from("no such word")),
    }
}

fn proxy_of(alloc: Global, settings: &Settings) -> Result<String, Fail> {
    match &settings.proxy {
        Some(proxy) => Ok(proxy.to_string(alloc)?),
        None => Ok(String::from_str(alloc, "none")?),
    }
}

/// Whether a scope takes an address that is a seed.
pub fn takes(alloc: Global, scope: &Scope, text: &str) -> Result<String, Fail> {
    let uri = parse_uri(alloc, text)?;
    let form = surt(alloc, &uri)?;
    let candidate = Candidate {
        uri,
        surt: form,
        path: HopPath::new(alloc, "")?,
    };
    match decide(alloc, scope, &candidate)? {
        Decision::Accept => Ok(String::from_str(alloc, "accepted")?),
        _ => Ok(String::from_str(alloc, "rejected")?),
    }
}
