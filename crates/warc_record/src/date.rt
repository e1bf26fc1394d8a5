// Moments as dates of UTC.
ghost use Rattle.std.specs.Prelude.{◌≡◌, ◌*◌, ◌≤◌, pos};
ghost use Rattle.jiff_core.specs.DateTime.{civil_nanos};
ghost use Rattle.record_spec.specs.Date.{digit, utc_text, IsDateOf};

use crawl_kinds::{MAX_MS, Millis};
use jiff_core::civil::DateTime;

/// The last decimal digit of a number.
fn digit(number: u32) -> u8
    ensures { result ≡ digit number }
{
    b'0' + (number % 10) as u8
}

/// A date and a time of day as `YYYY-MM-DDThh:mm:ss.mmmZ`.
fn utc_text(utc: DateTime) -> [u8; 24]
    ensures { result ≡ utc_text utc }
{
    let year = u32::from(utc.date.year.unsigned_abs());
    let month = u32::from(utc.date.month);
    let day = u32::from(utc.date.day);
    let hour = u32::from(utc.time.hour);
    let minute = u32::from(utc.time.minute);
    let second = u32::from(utc.time.second);
    let milli = utc.time.subsec_nanosecond / 1_000_000;
    [
        digit(year / 1000),
        digit(year / 100),
        digit(year / 10),
        digit(year),
        b'-',
        digit(month / 10),
        digit(month),
        b'-',
        digit(day / 10),
        digit(day),
        b'T',
        digit(hour / 10),
        digit(hour),
        b':',
        digit(minute / 10),
        digit(minute),
        b':',
        digit(second / 10),
        digit(second),
        b'.',
        digit(milli / 100),
        digit(milli / 10),
        digit(milli),
        b'Z',
    ]
}

/// What a clock of UTC shows at a moment.
fn utc_of(moment: Millis) -> DateTime
    requires { moment ≤ MAX_MS }
    ensures { civil_nanos result ≡ pos (moment * 1_000_000) }
{
    DateTime::from_nanosecond_in_range(moment as i128 * 1_000_000)
}

/// The date and the time of UTC of a moment, in milliseconds since 1970 and at most `MAX_MS`, as
/// `YYYY-MM-DDThh:mm:ss.mmmZ` (ISO 28500 §5.4): 24 bytes.
pub fn date_text(moment: Millis) -> [u8; 24]
    requires { moment ≤ MAX_MS }
    ensures { IsDateOf moment result }
{
    utc_text(utc_of(moment))
}
