//! Answers cases about the journal: its lines as they are read and written, and its file as it is opened and added to.
#![tactic(auto)]

mod files;
mod lines;
mod made;

use case_file::{Asker, Entry, Reply, ask_all};
use std::alloc::Global;
use std::process::ExitCode;
use std::test::Fail;

/// Answers each keyword by itself: nothing lasts from one case to the next.
#[derive(Drop)]
struct Journals;

impl Asker for Journals {
    fn ask(&mut self, alloc: Global, entry: &Entry) -> Result<Reply, Fail> {
        match entry.keyword.as_str() {
            "read" => lines::read(alloc, entry),
            "copy" => lines::copied(alloc, entry),
            "write" => made::written(alloc, entry),
            "journal" => files::opened(alloc, entry),
            "append" => files::appended(alloc, entry),
            _ => Ok(Reply::Unknown),
        }
    }
}

fn main(rt: HostRuntime) -> Result<ExitCode, Fail> {
    files::laws_of_journals();
    let mut asker = Journals;
    if ask_all(&rt, rt.alloc(), rt.stdin(), &mut asker)? {
        Ok(ExitCode::SUCCESS)
    } else {
        Ok(ExitCode::FAILURE)
    }
}
