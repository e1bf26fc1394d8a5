// What is kept of the robots files of classes, and what that says.
ghost use Rattle.std.specs.Prelude.{◌≡◌, ◌/◌, ◌==◌, ◌&&◌, ℕ, List, IfOk, Some, true, false, bytes_eq, is_none, is_some, nat_abs, take, if◌then◌else◌};
ghost use Rattle.std.specs.BTreeMap.{IsOrdered};
ghost use Rattle.std.specs.Cmp.Lexicographic.{slice_cmp};
ghost use Rattle.std.specs.Ordering.{nat_cmp};
ghost use Rattle.std.specs.List.{position_or_len};
ghost use Rattle.std.specs.Option.{option_copied};
ghost use Rattle.crawl_kinds.specs.Event.{Finishing};
ghost use Rattle.crawl_history.specs.Facts.{Archive};
ghost use Rattle.crawl_kinds.specs.declared.event.Outcome.TheVariants as outcome;
ghost use Rattle.crawl_kinds.specs.declared.event.Verdict.TheVariants.{Allowed};
ghost use Rattle.crawl_history.specs.Outcomes as outcomes;
ghost use Rattle.crawl_history.specs.Robots.{cited_block};
ghost use Rattle.crawl_history.specs.Verdicts as verdicts;
ghost use Rattle.core_facts.specs.CoreFacts.{Pages, is_secure};
ghost use Rattle.scope_spec.specs.UriParts.{colon};
ghost use Rattle.frontier_core.specs.Core.{Core, facts, history, robots_at};
ghost use Rattle.frontier_core.specs.Robots.{said_at, said_by_status, verdict_said, kept_delay};
ghost use Rattle.frontier_core.specs.Standing.{Leaves, LeavesEnd, Stands, StandingLaws};
ghost use Rattle.frontier_memo.specs.Sums.{class_at};

use crawl_kinds::{ClassKey, End, Item, Key, Millis, NoMemory, Outcome, Settings, Uri, Verdict};
use frontier_adds::is_prerequisite;
use robots_rules::{Robots, robots_path};
use std::alloc::Global;
use std::collections::BTreeMap;
use std::mem;

/// How long a robots file holds: a day, in milliseconds (RFC 9309 section 2.4).
const ROBOTS_LIFE: Millis = 86_400_000;

/// How many bytes of a robots file are read (RFC 9309 section 2.5).
const ROBOTS_BYTES: usize = 524_288;

/// What the last robots file of a class said, and when it came.
#[derive(Drop)]
pub struct KeptRobots {
    pub time: Millis,
    pub says: RobotsSay,
}

/// What a robots file says of its class (RFC 9309 section 2.3.1).
#[derive(Drop)]
pub enum RobotsSay {
    /// It could not be fetched, so that nothing else may be.
    Closed,
    /// Its rules hold.
    Rules(Robots),
    /// All is allowed: there is no such file, or it redirects.
    Open,
}

/// What is kept, until it is a day old.
fn said(kept: Option<&KeptRobots>, at: Millis) -> Option<&RobotsSay>
    ensures { option_copied result ≡ said_at (option_copied kept.entry) at }
{
    let kept = kept?;
    if ROBOTS_LIFE <= at && kept.time <= at - ROBOTS_LIFE {
        return None;
    }
    Some(&kept.says)
}

/// The verdict on an address by the rules of a robots file.
fn ruled(alloc: Global, robots: &Robots, uri: &Uri) -> Result<Verdict, NoMemory>
    ensures { IfOk result (λ v. v ≡ verdict_said (Some (RobotsSay.Rules robots.now)) uri.now) }
{
    let path = robots_path(alloc, uri)?;
    if robots.allows(&path) {
        Ok(Verdict::Allowed)
    } else {
        Ok(Verdict::Precluded)
    }
}

/// The verdict on an address by what a robots file says.
fn said_verdict(alloc: Global, says: Option<&RobotsSay>, uri: &Uri) -> Result<Verdict, NoMemory>
    ensures { IfOk result (λ v. v ≡ verdict_said (option_copied says.entry) uri.now) }
{
    match says {
        None => Ok(Verdict::Needed),
        Some(RobotsSay::Closed) => Ok(Verdict::Unreachable),
        Some(RobotsSay::Rules(robots)) => ruled(alloc, robots, uri),
        Some(RobotsSay::Open) => Ok(Verdict::Allowed),
    }
}

/// The place of the first `:`, or the length.
fn colon_at(bytes: &[u8]) -> usize
    ensures { result ≡ position_or_len (λ b. b == colon) bytes.now }
{
    bytes.iter().position(|b| *b == b':').unwrap_or(bytes.len())
}

/// Whether the scheme of an address is https.
fn is_secure(uri: &Uri) -> bool
    ensures { result ≡ is_secure uri.now }
{
    let bytes = uri.as_bytes();
    up_to(bytes, colon_at(bytes)) == b"https".as_slice()
}

/// The verdict on an item at a moment, in milliseconds, by what is kept of the robots file of its class. What is allowed is
/// not of https, or there is a proxy. It fails for want of memory alone.
pub fn verdict(
    alloc: Global,
    settings: &Settings,
    kept: Option<&KeptRobots>,
    item: &Item,
    at: Millis,
) -> Result<Verdict, NoMemory>
    ensures says { IfOk result (λ v. (pages : Pages) (a : Archive) (core : Core) → core.settings ≡ settings.now
        → robots_at core item.now.class ≡ option_copied kept.entry → Stands pages a core
        → v ≡ verdicts.verdict (facts core pages) a (history core) item.now at) }
    ensures allowed { IfOk result (λ v. v ≡ Allowed → (is_secure item.now.uri && is_none settings.now.proxy) ≡ false) }
{
    if is_secure(&item.uri) && settings.proxy.is_none() {
        return Ok(Verdict::Unsupported);
    }
    if is_prerequisite(item) {
        return Ok(Verdict::Allowed);
    }
    said_verdict(alloc, said(kept, at), &item.uri)
}

/// The seconds that a class is to be left alone between two fetches at a moment, in milliseconds, where its robots file
/// asks for that.
pub fn delay(kept: Option<&KeptRobots>, at: Millis) -> Option<u32>
    ensures { result ≡ kept_delay (option_copied kept.entry) at }
{
    match said(kept, at)? {
        RobotsSay::Rules(robots) => robots.crawl_delay(),
        _ => None,
    }
}

/// The first bytes, or all where there are fewer.
fn up_to(bytes: &[u8], end: usize) -> &[u8]
    ensures { result.now ≡ take end bytes.now }
{
    if end < bytes.len() {
        &bytes[..end]
    } else {
        bytes
    }
}

/// What a robots file that came says to the agent, by its status.
fn said_of(alloc: Global, agent: &Key, end: &End, payload: &[u8]) -> Result<RobotsSay, NoMemory>
    ensures { IfOk result (λ says. says ≡ said_by_status agent.now (nat_abs end.now.code / 100) payload.now) }
{
    match end.code.unsigned_abs() / 100 {
        5 => Ok(RobotsSay::Closed),
        2 => Ok(RobotsSay::Rules(Robots::read(
            alloc,
            up_to(payload, ROBOTS_BYTES),
            agent.as_str(),
        )?)),
        _ => Ok(RobotsSay::Open),
    }
}

/// What is to be kept of the end of a robots file at a moment, in milliseconds, with the payload of the response: nothing
/// after an end that tells nothing. It fails for want of memory alone.
pub fn kept_of(
    alloc: Global,
    agent: &Key,
    time: Millis,
    end: &End,
    payload: &[u8],
) -> Result<Option<KeptRobots>, NoMemory>
    ensures { IfOk result (λ kept. (pages : Pages) (a : Archive) (core : Core) (c : Finishing) → core.settings.agent ≡ agent.now
        → c.time ≡ time → c.end ≡ end.now → (c.end.outcome ≡ outcome.Success → payload.now ≡ pages.payload (cited_block a c.end.body))
        → Leaves (facts core pages) a c kept) }
{
    match end.outcome {
        Outcome::Success => {
            let says = said_of(alloc, agent, end, payload)?;
            Ok(Some(KeptRobots { time, says }))
        }
        Outcome::Failure => Ok(Some(KeptRobots {
            time,
            says: RobotsSay::Closed,
        })),
        Outcome::Disregard => Ok(None),
        Outcome::Retry => Ok(None),
    }
}

/// What is to be kept of an end at a moment, in milliseconds, with the payload of the response: nothing where it is that of
/// no robots file. It fails for want of memory alone.
pub fn kept_after(
    alloc: Global,
    agent: &Key,
    item: &Item,
    time: Millis,
    end: &End,
    payload: &[u8],
) -> Result<Option<KeptRobots>, NoMemory>
    ensures { IfOk result (λ kept. (pages : Pages) (a : Archive) (core : Core) (c : Finishing) → core.settings.agent ≡ agent.now
        → c.item ≡ item.now → c.time ≡ time → c.end ≡ end.now
        → (c.end.outcome ≡ outcome.Success → outcomes.is_prerequisite c.item ≡ true → payload.now ≡ pages.payload (cited_block a c.end.body))
        → LeavesEnd (facts core pages) a c kept) }
{
    if !is_prerequisite(item) {
        return Ok(None);
    }
    kept_of(alloc, agent, time, end, payload)
}

/// Keeps of a class what was kept before something else was put over it. It takes no memory.
pub fn put_back(
    robots: &mut BTreeMap<ClassKey, KeptRobots>,
    class: &ClassKey,
    before: Option<KeptRobots>,
)
    requires { is_some (class_at robots.old class.now) ≡ true }
    ensures back { (q : List ℕ) → class_at robots.new q ≡ (if bytes_eq class.now q then before else class_at robots.old q) }
    ensures ordered { IsOrdered (slice_cmp nat_cmp) robots.new }
{
    let Some(before) = before else {
        robots.remove(class);
        return;
    };
    if let Some(kept) = robots.get_mut(class) {
        drop(mem::replace(kept, before));
    }
}

/// What is known of robots files after a session, and after events that end none.
pub fn standing_laws()
    ensures { StandingLaws }
{}
