//! Answers cases about job texts, the lines of statuses, the queues of hosts and their waits, plain texts, and case files.
#![tactic(auto)]

mod files;
mod job;
mod queue;
mod status;
mod texts;
mod values;
mod wait;

use case_file::{Asker, Entry, Reply, ask_all};
use crawl_kinds::{ClassForm, DigestForm, KeyForm, MediaForm, PathForm, UriForm};
use std::alloc::Global;
use std::process::ExitCode;
use std::test::Fail;

/// Answers each keyword by itself: nothing lasts from one case to the next.
#[derive(Drop)]
struct Jobs;

/// What comes of a case about a plain text.
fn text(alloc: Global, entry: &Entry) -> Result<Reply, Fail> {
    match entry.keyword.as_str() {
        "uri" => texts::made::<UriForm>(alloc, entry),
        "key" => texts::made::<KeyForm>(alloc, entry),
        "class" => texts::made::<ClassForm>(alloc, entry),
        "path" => texts::made::<PathForm>(alloc, entry),
        "media" => texts::made::<MediaForm>(alloc, entry),
        "digest" => texts::made::<DigestForm>(alloc, entry),
        _ => Ok(Reply::Unknown),
    }
}

impl Asker for Jobs {
    fn ask(&mut self, alloc: Global, entry: &Entry) -> Result<Reply, Fail> {
        match entry.keyword.as_str() {
            "job" => job::job(alloc, entry),
            "sample" => job::sample(alloc, entry),
            "setting" => job::setting(alloc, entry),
            "status" => status::status(alloc, entry),
            "queue" => queue::order(alloc, entry),
            "wait" => wait::wait(alloc, entry),
            "cases" => files::cases(alloc, entry),
            _ => text(alloc, entry),
        }
    }
}

fn main(rt: HostRuntime) -> Result<ExitCode, Fail> {
    let mut asker = Jobs;
    if ask_all(&rt, rt.alloc(), rt.stdin(), &mut asker)? {
        Ok(ExitCode::SUCCESS)
    } else {
        Ok(ExitCode::FAILURE)
    }
}
