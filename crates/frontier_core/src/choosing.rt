// Which of what waits goes next.
ghost use Rattle.std.specs.Prelude.{◌≡◌, ◌*◌, ◌+◌, ◌-◌, ◌/◌, unwrap_or, ◌<◌, ◌≤◌, max, ◌&&◌, ◌||◌, not, ℕ, List, None, if◌then◌else◌};
ghost use Rattle.std.specs.BTreeMap.{IsOrdered, values};
ghost use Rattle.std.specs.Cmp.Lexicographic.{slice_cmp};
ghost use Rattle.std.specs.List.{list_any};
ghost use Rattle.std.specs.Option.{option_copied};
ghost use Rattle.std.specs.Ordering.{nat_cmp};
ghost use Rattle.core_facts.specs.CoreFacts.{Pages};
ghost use Rattle.crawl_kinds.specs.declared.event.Event as event_type;
ghost use Rattle.crawl_history.specs.Counts as counts;
ghost use Rattle.crawl_history.specs.Emission as emission;
ghost use Rattle.crawl_history.specs.Emission.{is_empty};
ghost use Rattle.crawl_history.specs.Facts.{Archive};
ghost use Rattle.crawl_history.specs.History.{History, history_of};
ghost use Rattle.crawl_history.specs.Queues.{in_class};
ghost use Rattle.crawl_history.specs.Tickets as tickets;
ghost use Rattle.crawl_history.specs.Waits.{capped};
ghost use Rattle.frontier_core.specs.Core.{Core, facts, history};
ghost use Rattle.frontier_core.specs.Standing.{Stands};
ghost use Rattle.frontier_core.specs.Choosing.{kept_wait, wake_after, wake_before, kept_wake, choice_order, first_of_two, IsCandidate, IsLeast, answer_by, IsReady};
ghost use Rattle.frontier_memo.specs.Memory.{Remembers};
ghost use Rattle.frontier_memo.specs.Sums.{class_at, saturated, spent_at};

use crate::robots::{KeptRobots, delay};
use crawl_kinds::{ClassKey, MAX_MS, Millis, Outcome, Settings};
use frontier_memo::{Known, Last, Memo, Out, SessionMemo, Waiting};
use host_queue::polite_wait;
use std::cmp::Ordering;
use std::collections::BTreeMap;

/// What waits and may go, with the wake of its class.
#[derive(Clone, Copy)]
pub struct Choice<'a> {
    pub wake: Millis,
    pub own: &'a Waiting,
}

/// Whether there is a limit and a count meets it.
fn is_met(limit: u64, count: u64) -> bool
    ensures { (n : ℕ) → count ≡ saturated n → result ≡ counts.is_met limit n }
{
    if limit == 0 {
        return false;
    }
    limit <= count
}

/// Whole seconds since the first session.
fn seconds_since(first: Option<Millis>, at: Millis) -> u64
    ensures { result ≡ (at - unwrap_or first 0) / 1000 }
{
    at.saturating_sub(first.unwrap_or(0)) / 1000
}

/// Whether one of three is met.
fn is_any(pages: bool, bytes: bool, seconds: bool) -> bool
    ensures { result ≡ (pages || bytes || seconds) }
{
    pages || bytes || seconds
}

/// Whether a limit of the job is met at a moment.
pub fn is_limit_met(settings: &Settings, memo: &Memo, at: Millis) -> bool
    ensures { (h : History) → Remembers h memo.now → result ≡ counts.is_limit_met settings.now h at }
{
    let pages = is_met(settings.max_pages, memo.counts.pages);
    let bytes = is_met(settings.max_bytes, memo.counts.bytes);
    let seconds = is_met(settings.max_seconds, seconds_since(memo.first, at));
    is_any(pages, bytes, seconds)
}

/// Whether an item of a class is out.
fn is_class_out(out: &[Out], class: &ClassKey) -> bool
    ensures { result ≡ list_any (λ o. in_class class.now o.item) out.now }
{
    out.iter().any(|one| one.item.class == *class)
}

/// What a class has spent.
fn spent(spent: &BTreeMap<ClassKey, u64>, class: &ClassKey) -> u64
    ensures { result ≡ spent_at spent.now class.now }
{
    spent.get(class).copied().unwrap_or(0)
}

/// Whether a class has budget left and nothing of it is out.
fn may_go(settings: &Settings, memo: &Memo, class: &ClassKey) -> bool
    ensures { (h : History) → Remembers h memo.now
        → result ≡ (not (counts.is_retired settings.now h class.now) && not (tickets.is_out h class.now)) }
{
    let is_retired = is_met(settings.host_budget, spent(&memo.counts.spent, class));
    let is_out = is_class_out(&memo.session.out, class);
    !is_retired && !is_out
}

/// The least wait before an item is tried again, in milliseconds.
fn retry_wait(settings: &Settings) -> Millis
    ensures { result ≡ capped (settings.now.retry_delay_s * 1000) }
{
    settings.retry_delay_s.saturating_mul(1000).min(MAX_MS)
}

/// A moment so much later, in milliseconds, or the last one.
fn later(time: Millis, wait: Millis) -> Millis
    ensures { result ≡ capped (time + wait) }
{
    time.saturating_add(wait).min(MAX_MS)
}

/// The wait after a finish, in milliseconds, by the delay that the robots file asks for, in seconds.
fn wait_after(settings: &Settings, delay: Option<u32>, last: &Last) -> Millis
    ensures { result ≡ kept_wait settings.now delay last.now.outcome last.now.fetch }
{
    let Some(fetch) = last.fetch else {
        return 0;
    };
    let polite = polite_wait(settings, fetch.duration, delay);
    match last.outcome {
        Outcome::Retry => retry_wait(settings).max(polite),
        Outcome::Success => polite,
        Outcome::Failure => polite,
        Outcome::Disregard => polite,
    }
}

/// The wake after the last finish of a class.
fn wake_behind(settings: &Settings, robots: Option<&KeptRobots>, last: &Last) -> Millis
    ensures { result ≡ wake_after settings.now (option_copied robots.entry) last.now }
{
    let wait = wait_after(settings, delay(robots, last.time), last);
    later(last.time, wait)
}

/// The wake of a class of which nothing ended in the session: a while after its begin, where anything went out before it.
fn first_wake(settings: &Settings, session: &SessionMemo) -> Millis
    ensures { result ≡ wake_before settings.now session.now }
{
    if 0 < session.earlier {
        later(session.start, settings.min_delay_ms)
    } else {
        0
    }
}

/// From when on a class may be asked, in milliseconds.
fn wake_of(
    settings: &Settings,
    session: &SessionMemo,
    robots: &BTreeMap<ClassKey, KeptRobots>,
    class: &ClassKey,
) -> Millis
    ensures { result ≡ kept_wake settings.now session.now (class_at robots.now) class.now }
{
    match session.last.get(class) {
        Some(Some(last)) => wake_behind(settings, robots.get(class), last),
        Some(None) => first_wake(settings, session),
        None => first_wake(settings, session),
    }
}

/// What waits, where it may go.
fn candidate<'a>(
    settings: &Settings,
    memo: &Memo,
    robots: &BTreeMap<ClassKey, KeptRobots>,
    known: &'a Known,
) -> Option<Choice<'a>>
    ensures { (h : History) → Remembers h memo.now
        → IsCandidate settings.now (kept_wake settings.now memo.now.session (class_at robots.now)) h known.now result }
{
    match known {
        Known::Waits(own) if may_go(settings, memo, &own.item.class) => Some(Choice {
            wake: wake_of(settings, &memo.session, robots, &own.item.class),
            own,
        }),
        _ => None,
    }
}

/// In which order two go.
fn order(x: &Choice<'_>, y: &Choice<'_>) -> Ordering
    ensures { result ≡ choice_order x.now y.now }
{
    let class = x.own.item.class.cmp(&y.own.item.class);
    let rank = x.own.item.rank.cmp(&y.own.item.rank);
    let ordinal = x.own.ordinal.cmp(&y.own.ordinal);
    x.wake.cmp(&y.wake).then(class.then(rank.then(ordinal)))
}

/// Of two the one that goes first.
fn first_of<'a>(best: Option<Choice<'a>>, next: Option<Choice<'a>>) -> Option<Choice<'a>>
    ensures { result ≡ first_of_two best.entry next.entry }
{
    match (best, next) {
        (None, next) => next,
        (Some(best), None) => Some(best),
        (Some(best), Some(next)) => {
            if order(&next, &best) == Ordering::Less {
                Some(next)
            } else {
                Some(best)
            }
        }
    }
}

/// Of all that waits and may go, what goes first.
pub fn least<'a>(
    settings: &Settings,
    memo: &'a Memo,
    robots: &BTreeMap<ClassKey, KeptRobots>,
) -> Option<Choice<'a>>
    ensures least { (h : History) → Remembers h memo.now
        → IsLeast settings.now (kept_wake settings.now memo.now.session (class_at robots.now)) h (values memo.now.places) result }
    ensures ordered { IsOrdered (slice_cmp nat_cmp) memo.now.places }
{
    let mut best = None;
    for known in memo.places.values() {
        best = first_of(best, candidate(settings, memo, robots, known));
    }
    best
}

/// What an emit is to answer.
pub enum Next<'a> {
    /// This item goes.
    Go(&'a Waiting),
    /// Nothing goes yet; where it is known, from when on something may, in milliseconds.
    Wait(Option<Millis>),
    /// Nothing will go any more.
    Over,
}

/// Whether nothing is out.
fn is_none_out(memo: &Memo) -> bool
    ensures { result ≡ is_empty memo.now.session.out.items }
{
    memo.session.out.is_empty()
}

/// What is to be answered where nothing may go.
fn idle<'a>(memo: &Memo) -> Next<'a>
    ensures { answer_by result ≡ (if is_empty memo.now.session.out.items then emission.Over else emission.NotYet None) }
{
    if is_none_out(memo) {
        Next::Over
    } else {
        Next::Wait(None)
    }
}

/// What an emit at a moment is to answer.
pub fn decide<'a>(
    settings: &Settings,
    memo: &'a Memo,
    robots: &BTreeMap<ClassKey, KeptRobots>,
    at: Millis,
) -> Next<'a>
    ensures answered { (pages : Pages) (a : Archive) (core : Core) → core.settings ≡ settings.now → core.robots ≡ robots.now.entries
        → Remembers (history core) memo.now → Stands pages a core
        → emission.answer (facts core pages) a (history core) at ≡ answer_by result }
    ensures ready { (events : List event_type.Event) → Remembers (history_of events) memo.now → IsReady (history_of events) result }
{
    if is_limit_met(settings, memo, at) {
        return idle(memo);
    }
    let Some(choice) = least(settings, memo, robots) else {
        return idle(memo);
    };
    if choice.wake <= at {
        Next::Go(choice.own)
    } else {
        Next::Wait(Some(choice.wake))
    }
}

/// Whether it is over at a moment: nothing is out, and a limit is met or nothing that waits may go.
pub fn over(
    settings: &Settings,
    memo: &Memo,
    robots: &BTreeMap<ClassKey, KeptRobots>,
    at: Millis,
) -> bool
    ensures { (pages : Pages) (a : Archive) (core : Core) → core.settings ≡ settings.now → Remembers (history core) memo.now
        → result ≡ emission.is_over (facts core pages) a (history core) at }
{
    if !is_none_out(memo) {
        return false;
    }
    if is_limit_met(settings, memo, at) {
        return true;
    }
    least(settings, memo, robots).is_none()
}

/// Which try of what waits comes next, counted from 1; in a legal history no more tries are made than the job allows.
pub fn next_try(settings: &Settings, own: &Waiting) -> u32
    ensures next { (n : ℕ) → own.now.tries ≡ saturated n → n < max settings.now.max_tries 1 → result ≡ n + 1 }
    ensures first { 1 ≤ result }
{
    let most = settings.max_tries.max(1);
    match u32::try_from(own.tries) {
        Ok(tries) if tries < most => tries + 1,
        _ => most,
    }
}
