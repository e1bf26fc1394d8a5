// The table of a job's settings, as the definitions have it.
ghost use Rattle.std.specs.Prelude.{◌≡◌};
ghost use Rattle.job_spec.specs.Settings.{number_name, range, range_of, setting_name};

use job_spec::{Number, Range, Setting};

/// What a job has to give, in order.
pub(crate) const NEEDED: [Setting; 4] = [
    Setting::Name,
    Setting::Agent,
    Setting::Contact,
    Setting::Seeds,
];

/// The numbers, in order.
pub(crate) const NUMBERS: [Number; 16] = [
    Number::Workers,
    Number::DelayFactor,
    Number::MinDelay,
    Number::MaxDelay,
    Number::MaxCrawlDelay,
    Number::MaxTries,
    Number::RetryDelay,
    Number::Timeout,
    Number::HostBudget,
    Number::MaxPages,
    Number::MaxBytes,
    Number::MaxSeconds,
    Number::MaxKeys,
    Number::MaxResponseBytes,
    Number::WarcMaxBytes,
    Number::CheckpointFinishes,
];

/// The name of a number.
#[tactic(auto, unfolding(job_spec::specs::Settings::number_name))]
fn number_name(number: Number) -> &'static str
    ensures { result.now ≡ number_name number }
{
    match number {
        Number::Workers => "workers",
        Number::DelayFactor => "delay_factor",
        Number::MinDelay => "min_delay_ms",
        Number::MaxDelay => "max_delay_ms",
        Number::MaxCrawlDelay => "max_crawl_delay_s",
        Number::MaxTries => "max_tries",
        Number::RetryDelay => "retry_delay_s",
        Number::Timeout => "timeout_ms",
        Number::HostBudget => "host_budget",
        Number::MaxPages => "max_pages",
        Number::MaxBytes => "max_bytes",
        Number::MaxSeconds => "max_seconds",
        Number::MaxKeys => "max_keys",
        Number::MaxResponseBytes => "max_response_bytes",
        Number::WarcMaxBytes => "warc_max_bytes",
        Number::CheckpointFinishes => "checkpoint_finishes",
    }
}

/// The name of a setting.
#[tactic(auto, unfolding(job_spec::specs::Settings::setting_name))]
pub(crate) fn setting_name(setting: Setting) -> &'static str
    ensures { result.now ≡ setting_name setting }
{
    match setting {
        Setting::Name => "name",
        Setting::Agent => "agent",
        Setting::Contact => "contact",
        Setting::Seeds => "seeds",
        Setting::Proxy => "proxy",
        Setting::Number(number) => number_name(number),
        Setting::Rule => "rule",
    }
}

fn range(default: u64, least: u64, most: u64) -> Range
    ensures { result ≡ range default least most }
{
    Range {
        default,
        least,
        most,
    }
}

/// The default of a number, and the least and the most that it may be.
#[tactic(auto, unfolding(job_spec::specs::Settings::range_of))]
pub(crate) fn range_of(number: Number) -> Range
    ensures { result ≡ range_of number }
{
    match number {
        Number::Workers => range(25, 1, 32),
        Number::DelayFactor => range(5, 0, 1000),
        Number::MinDelay => range(3000, 0, 3_600_000),
        Number::MaxDelay => range(30_000, 0, 3_600_000),
        Number::MaxCrawlDelay => range(300, 0, 3600),
        Number::MaxTries => range(30, 1, 1000),
        Number::RetryDelay => range(900, 0, 86_400),
        Number::Timeout => range(20_000, 1, 600_000),
        Number::HostBudget => range(0, 0, 2_000_000),
        Number::MaxPages => range(0, 0, 1_000_000_000_000_000),
        Number::MaxBytes => range(0, 0, 1_000_000_000_000_000),
        Number::MaxSeconds => range(0, 0, 1_000_000_000_000_000),
        Number::MaxKeys => range(2_000_000, 1, 2_000_000),
        Number::MaxResponseBytes => range(8_388_608, 65_536, 8_388_608),
        Number::WarcMaxBytes => range(1_000_000_000, 1024, 1_000_000_000),
        Number::CheckpointFinishes => range(10_000, 1, 10_000),
    }
}
