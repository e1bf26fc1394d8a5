//! Cases on pages: heads of responses, references and links, fetches, requests and WARC records. It reads a case file
//! (docs/CASES.md) on standard input, asks the libraries, and ends with status 0 where all is as it must be.
#![tactic(auto)]

mod exchanges;
mod heads;
mod records;
mod references;

use case_file::{Asker, Entry, Reply, ask_all};
use std::alloc::Global;
use std::process::ExitCode;
use std::test::Fail;

/// Answers by the libraries.
#[derive(Clone, Copy)]
struct Libraries;

impl Asker for Libraries {
    fn ask(&mut self, alloc: Global, entry: &Entry) -> Result<Reply, Fail> {
        match entry.keyword.as_str() {
            "html" => references::html(alloc, entry),
            "css" => references::css(alloc, entry),
            "script" => references::script(alloc, entry),
            "links" => references::links(alloc, entry),
            "many_links" => references::many_links(alloc, entry),
            "header_refs" => references::of_head(alloc, entry),
            "front" => heads::front(alloc, entry),
            "read_head" => heads::found(alloc, entry),
            "head" => heads::head(alloc, entry),
            "field" => heads::field(alloc, entry),
            "media" => heads::media(alloc, entry),
            "request" => exchanges::request(alloc, entry),
            "fetch" => exchanges::fetched(alloc, entry),
            "record" => records::record(alloc, entry),
            "reread" => records::reread(alloc, entry),
            "date" => records::date(alloc, entry),
            "digest" => records::digest(alloc, entry),
            "id" => records::id(alloc, entry),
            _ => Ok(Reply::Unknown),
        }
    }
}

fn main(rt: HostRuntime) -> Result<ExitCode, Fail> {
    if ask_all(&rt, rt.alloc(), rt.stdin(), &mut Libraries)? {
        return Ok(ExitCode::SUCCESS);
    }
    Ok(ExitCode::FAILURE)
}
