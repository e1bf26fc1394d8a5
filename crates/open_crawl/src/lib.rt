//! A crawl on a volume: the job that is kept there, and the crawl that is opened with it.
#![tactic(auto)]

mod begin;
mod fault;
mod job_file;
mod opening;

pub use fault::{LoadFault, SeedsStop};
pub use job_file::{read_job, read_job_text, write_job};
pub use opening::OpenCrawl;
