// The settings of a job.
use crate::memory::{Copied, NoMemory};
use crate::text::{Key, Uri};

/// The names and numbers of a job text. Delays and times are in milliseconds where the name ends in `ms`,
/// in seconds where it ends in `s` or `seconds`; a limit of 0 is none.
#[derive(Drop)]
pub struct Settings {
    pub name: Key,
    pub agent: Key,
    pub contact: Uri,
    pub proxy: Option<Key>,
    pub workers: u32,
    pub delay_factor: u64,
    pub min_delay_ms: u64,
    pub max_delay_ms: u64,
    pub max_crawl_delay_s: u64,
    pub max_tries: u32,
    pub retry_delay_s: u64,
    pub timeout_ms: u64,
    pub host_budget: u64,
    pub max_pages: u64,
    pub max_bytes: u64,
    pub max_seconds: u64,
    pub max_keys: u64,
    pub max_response_bytes: u64,
    pub warc_max_bytes: u64,
    pub checkpoint_finishes: u64,
}

impl Copied for Settings {
    fn copy(&self) -> Result<Self, NoMemory> {
        Ok(Settings {
            name: self.name.copy()?,
            agent: self.agent.copy()?,
            contact: self.contact.copy()?,
            proxy: self.proxy.copy()?,
            workers: self.workers,
            delay_factor: self.delay_factor,
            min_delay_ms: self.min_delay_ms,
            max_delay_ms: self.max_delay_ms,
            max_crawl_delay_s: self.max_crawl_delay_s,
            max_tries: self.max_tries,
            retry_delay_s: self.retry_delay_s,
            timeout_ms: self.timeout_ms,
            host_budget: self.host_budget,
            max_pages: self.max_pages,
            max_bytes: self.max_bytes,
            max_seconds: self.max_seconds,
            max_keys: self.max_keys,
            max_response_bytes: self.max_response_bytes,
            warc_max_bytes: self.warc_max_bytes,
            checkpoint_finishes: self.checkpoint_finishes,
        })
    }
}
