//! Dates as texts: a moment, in seconds since 1970, as its date and time in UTC.

ghost use Rattle.std.specs.Prelude.{◌≡◌, ◌+◌, ◌<◌, pos, ◌≤ℤ◌};
ghost use Rattle.jiff_core.specs.Calendar.{day_count};
ghost use Rattle.redl_stamp.specs.Moment.{IsMoment};
ghost use Rattle.redl_formats.specs.Dates.{two_digits, ymd_text, day_text, time_text, moment_text};

use jiff_core::civil::Date;

// 0000-01-01T00:00:00Z.
const FIRST_MOMENT: i64 = -62_167_219_200;

// How many days after -9999-01-01 is 0000-01-01.
const FIRST_DAY: u32 = 3_652_059;

// The two last decimal digits of a number.
fn two_digits(number: u8) -> [u8; 2]
    ensures { result ≡ two_digits number }
{
    [b'0' + number / 10 % 10, b'0' + number % 10]
}

// The day that is so many days after 0000-01-01, up to 9999-12-31.
fn day_after(days: u64) -> Date
    requires { days < 3_652_425 }
    ensures year { pos 0 ≤ℤ result.year }
    ensures days { day_count result.year result.month result.day ≡ days + 3_652_425 }
{
    Date::from_days_since_min(FIRST_DAY + days as u32)
}

// The day that is so many days after 0000-01-01, as `YYYY-MM-DD`.
fn day_text(days: u64) -> [u8; 10]
    requires { days < 3_652_425 }
    ensures { result ≡ day_text days }
{
    let date = day_after(days);
    ymd_text(date.year as u16, date.month, date.day)
}

// The day as `YYYY-MM-DD`.
fn ymd_text(year: u16, month: u8, day: u8) -> [u8; 10]
    requires { year < 10_000 }
    ensures { result ≡ ymd_text year month day }
{
    let [a, b] = two_digits((year / 100) as u8);
    let [c, d] = two_digits((year % 100) as u8);
    let [e, f] = two_digits(month);
    let [g, h] = two_digits(day);
    [a, b, c, d, b'-', e, f, b'-', g, h]
}

// The time so many seconds after midnight, as `hh:mm:ss`.
fn time_text(second: u32) -> [u8; 8]
    requires { second < 86_400 }
    ensures { result ≡ time_text second }
{
    let [a, b] = two_digits((second / 3600) as u8);
    let [c, d] = two_digits((second / 60 % 60) as u8);
    let [e, f] = two_digits((second % 60) as u8);
    [a, b, b':', c, d, b':', e, f]
}

/// The moment so many seconds after 1970-01-01T00:00:00Z, as `YYYY-MM-DDThh:mm:ssZ` in UTC.
pub fn moment_text(seconds: i64) -> [u8; 20]
    requires { IsMoment seconds }
    ensures { result ≡ moment_text seconds }
{
    let since = (seconds - FIRST_MOMENT) as u64;
    let mut text = *b"0000-00-00T00:00:00Z";
    text[..10].copy_from_slice(&day_text(since / 86_400));
    text[11..19].copy_from_slice(&time_text((since % 86_400) as u32));
    text
}
