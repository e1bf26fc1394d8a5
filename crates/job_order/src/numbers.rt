// The numbers of a job.
ghost use Rattle.std.specs.Prelude.{◌≡◌};
ghost use Rattle.toml.specs.View.{table_view};
ghost use Rattle.job_spec.specs.Numbers.{is_within, number_by, number_in, range_in, raised};
ghost use Rattle.job_spec.specs.OutOfRange.{is_bad, seed_limit};
ghost use Rattle.job_order.specs.Steps.{bad_number};
ghost use Rattle.job_spec.specs.Settings.{range_of};

use crate::names::{NUMBERS, range_of, setting_name};
use crate::table::{natural, value_at};
use job_spec::{Number, Range, Setting};
use toml::Table;

/// Whether a number is from the least to the most.
fn is_within(range: Range, number: u64) -> bool
    ensures { result ≡ is_within range number }
{
    range.least <= number && number <= range.most
}

/// The number at a name, where one within the range stands there, and else the default.
fn number_by(table: &Table, number: Number, range: Range) -> u64
    ensures { result ≡ number_by range number (table_view table.now) }
{
    let Some(value) = value_at(table, setting_name(Setting::Number(number))) else {
        return range.default;
    };
    match natural(value) {
        Some(given) if is_within(range, given) => given,
        _ => range.default,
    }
}

/// The range of a number in a job.
#[tactic(auto, unfolding(job_spec::specs::Numbers::range_in))]
fn range_in(table: &Table, number: Number) -> Range
    ensures { result ≡ range_in (table_view table.now) number }
{
    let range = range_of(number);
    match number {
        Number::MaxDelay => {
            let least = number_by(table, Number::MinDelay, range_of(Number::MinDelay));
            Range {
                default: range.default.max(least),
                least,
                most: range.most,
            }
        }
        _ => range,
    }
}

/// What a job gives for a number.
#[tactic(auto, unfolding(job_spec::specs::Numbers::number_in))]
pub(crate) fn number_in(table: &Table, number: Number) -> u64
    ensures { result ≡ number_in (table_view table.now) number }
{
    number_by(table, number, range_in(table, number))
}

/// Whether what stands at a number's name is none in its range.
#[tactic(auto, unfolding(job_spec::specs::OutOfRange::is_bad, job_spec::specs::OutOfRange::is_taken))]
fn is_bad(table: &Table, number: Number) -> bool
    ensures { result ≡ is_bad (table_view table.now) (Setting.Number number) }
{
    let Some(value) = value_at(table, setting_name(Setting::Number(number))) else {
        return false;
    };
    match natural(value) {
        Some(given) => !is_within(range_in(table, number), given),
        None => true,
    }
}

/// The first number whose value is none in its range.
#[tactic(auto, unfolding(crate::specs::Steps::bad_number))]
pub(crate) fn first_bad(table: &Table) -> Option<Number>
    ensures { result ≡ bad_number (table_view table.now) }
{
    NUMBERS
        .iter()
        .copied()
        .find(|number| is_bad(table, *number))
}
