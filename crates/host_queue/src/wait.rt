// The wait between two fetches of one host.
ghost use Rattle.std.specs.Prelude.{◌≡◌, ◌*◌};
ghost use Rattle.crawl_history.specs.Waits as waits;

use crawl_kinds::{MAX_MS, Millis, Settings};

/// A product of times, cut at the latest time.
fn capped_product(a: u64, b: u64) -> Millis
    ensures { result ≡ waits.capped (a * b) }
{
    a.saturating_mul(b).min(MAX_MS)
}

/// The delay that a robots file asks for, in milliseconds, no longer than the settings allow.
fn asked_delay(settings: &Settings, delay: Option<u32>) -> Millis
    ensures { result ≡ waits.delay_ms settings.now delay }
{
    match delay {
        Some(seconds) => capped_product(u64::from(seconds).min(settings.max_crawl_delay_s), 1000),
        None => 0,
    }
}

/// How long a host is left alone after a fetch that took `duration` milliseconds, in milliseconds: so many
/// times the duration as the settings say, within their least and greatest delay, and no less than the
/// `delay` that its robots file asks for, in seconds. It takes no memory.
pub fn polite_wait(settings: &Settings, duration: Millis, delay: Option<u32>) -> Millis
    ensures { result ≡ waits.polite_wait settings.now duration delay }
{
    let asked = asked_delay(settings, delay);
    capped_product(settings.delay_factor, duration)
        .max(settings.min_delay_ms)
        .min(settings.max_delay_ms)
        .max(asked)
}
