//! Cases on addresses, keys, seeds, scopes, sets and robots files: reads a case file (docs/CASES.md) on standard input, asks the
//! libraries, and ends with status 0 where all is as it must be.
#![tactic(auto)]

mod address;
mod answer;
mod named;
mod patterned;
mod robots;
mod rules;
mod scope;
mod seeds;
mod sets;
mod words;

use crate::patterned::Scopes;
use case_file::{Asker, Entry, Reply, ask_all};
use std::alloc::Global;
use std::process::ExitCode;
use std::test::Fail;

/// Answers by the libraries.
#[derive(Drop)]
struct Libraries {
    /// The scopes of `patterned` cases, which are asked again in threads.
    scopes: Scopes,
}

impl Asker for Libraries {
    fn ask(&mut self, alloc: Global, entry: &Entry) -> Result<Reply, Fail> {
        match entry.keyword.as_str() {
            "parse" => address::parse(alloc, entry),
            "join" => address::join(alloc, entry),
            "key" => address::key(alloc, entry),
            "class" => address::class(alloc, entry),
            "surt" => address::surt(alloc, entry),
            "surt_text" => address::surt_text(alloc, entry),
            "robots_address" => address::robots_address(alloc, entry),
            "named" => named::named(alloc, entry),
            "seed" => seeds::seed(alloc, entry),
            "prefix" => seeds::prefix(alloc, entry),
            "seeds" => seeds::listed(alloc, entry),
            "added" => seeds::added(alloc, entry),
            "count" => seeds::count(alloc, entry),
            "scope" => scope::scope(alloc, entry),
            "patterned" => self.scopes.patterned(alloc, entry),
            "covers" => sets::covers(alloc, entry),
            "seen" => sets::seen(alloc, entry),
            "robots" => robots::robots(alloc, entry),
            "robots_path" => robots::path(alloc, entry),
            _ => Ok(Reply::Unknown),
        }
    }
}

fn main(rt: HostRuntime) -> Result<ExitCode, Fail> {
    let alloc = rt.alloc();
    let mut libraries = Libraries {
        scopes: Scopes::new(alloc),
    };
    let is_right = ask_all(&rt, alloc, rt.stdin(), &mut libraries)?;
    if !libraries.scopes.agree_in_threads(&rt, alloc)? {
        println!(rt; "scopes answer otherwise in threads")?;
        return Ok(ExitCode::FAILURE);
    }
    if is_right {
        return Ok(ExitCode::SUCCESS);
    }
    Ok(ExitCode::FAILURE)
}
