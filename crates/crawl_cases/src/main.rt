//! Scenarios: crawls as stories, each command of which says what it must answer. docs/SCENARIOS.md describes their language. It
//! reads them on standard input, and prints which answers differ.
#![tactic(auto)]

mod asker;
mod clock;
mod commands;
mod faults;
mod history;
mod pages;
mod records;
mod reply;
mod sweep;
mod turns;
mod world;

use asker::Scenes;
use case_file::ask_all;
use std::process::ExitCode;
use std::test::Fail;

fn main(rt: HostRuntime) -> Result<ExitCode, Fail> {
    let alloc = rt.alloc();
    let mut asker = Scenes::new(&rt, alloc);
    if ask_all(&rt, alloc, rt.stdin(), &mut asker)? {
        Ok(ExitCode::SUCCESS)
    } else {
        Ok(ExitCode::FAILURE)
    }
}
