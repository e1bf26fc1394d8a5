// The names of a job text.
/// The numbers of a job.
#[derive(Clone, Copy, Debug, PartialEq, Eq)]
pub enum Number {
    Workers,
    DelayFactor,
    MinDelay,
    MaxDelay,
    MaxCrawlDelay,
    MaxTries,
    RetryDelay,
    Timeout,
    HostBudget,
    MaxPages,
    MaxBytes,
    MaxSeconds,
    MaxKeys,
    MaxResponseBytes,
    WarcMaxBytes,
    CheckpointFinishes,
}

/// What a number is where the job does not give it, and the least and the most that it may be.
#[derive(Clone, Copy, Debug, PartialEq, Eq)]
pub struct Range {
    pub default: u64,
    pub least: u64,
    pub most: u64,
}

/// What a job sets.
#[derive(Clone, Copy, Debug, PartialEq, Eq)]
pub enum Setting {
    Name,
    Agent,
    Contact,
    Seeds,
    Proxy,
    Number(Number),
    Rule,
}
