// Each line of a scenario, by its keyword.
use crate::commands::run_words;
use crate::faults::{set_clock, set_faults, set_file, set_job};
use crate::history::{asked, count, emits, journal, request, size, text};
use crate::pages::{add_page, add_raw};
use crate::records::{header, list_records};
use crate::reply::unusable;
use crate::sweep::sweep_calls;
use crate::turns::turn;
use crate::world::{World, new_world};
use case_file::{Asker, Entry, Reply};
use std::alloc::Global;
use std::sync::Wait;
use std::test::Fail;

/// Scenarios one after another.
#[derive(Drop)]
pub struct Scenes<'a, R: Wait> {
    rt: &'a R,
    world: World,
}

impl<'a, R: Wait> Scenes<'a, R> {
    pub fn new(rt: &'a R, alloc: Global) -> Self {
        Scenes {
            rt,
            world: new_world(alloc),
        }
    }
}

/// Does `scenario`.
fn begin(world: &mut World) -> Result<Reply, Fail> {
    *world = new_world(world.alloc);
    Ok(Reply::Ready)
}

/// Does `site none`.
fn empty_site(world: &mut World, entry: &Entry) -> Result<Reply, Fail> {
    if entry.text_word(0) != "none" {
        return Err(unusable(entry, "a site can be none"));
    }
    world.pages.clear();
    Ok(Reply::Ready)
}

/// Makes something ready.
fn make_ready(world: &mut World, entry: &Entry) -> Result<Reply, Fail> {
    match entry.keyword.as_str() {
        "scenario" => begin(world),
        "job" => set_job(world, entry),
        "page" => add_page(world.alloc, &mut world.pages, entry),
        "raw" => add_raw(world.alloc, &mut world.pages, entry),
        "site" => empty_site(world, entry),
        "clock" => set_clock(world, entry),
        "fail" => set_faults(world, entry),
        "file" => set_file(world, entry),
        _ => answer(world, entry),
    }
}

/// Answers a question that changes nothing.
fn answer(world: &World, entry: &Entry) -> Result<Reply, Fail> {
    match entry.keyword.as_str() {
        "journal" => journal(world, entry),
        "count" => count(world, entry),
        "emits" => emits(world),
        "bytes" => size(world, entry),
        "text" => text(world, entry),
        "records" => list_records(world),
        "header" => header(world, entry),
        "asked" => asked(world),
        "request" => request(world, entry),
        _ => Ok(Reply::Unknown),
    }
}

impl<R: Wait> Asker for Scenes<'_, R> {
    fn ask(&mut self, alloc: Global, entry: &Entry) -> Result<Reply, Fail> {
        match entry.keyword.as_str() {
            "run" => run_words(self.rt, &mut self.world, entry),
            "turns" => turn(&mut self.world, entry),
            "sweep" => sweep_calls(self.rt, alloc, &mut self.world, entry),
            _ => make_ready(&mut self.world, entry),
        }
    }
}
