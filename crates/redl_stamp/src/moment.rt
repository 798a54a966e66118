//! Moments: dates of revisions, in seconds.

ghost use Rattle.std.specs.Prelude.{◌≡◌, ◌<◌, ◌≤◌, IfSome, pos, neg_ℤ};
ghost use Rattle.jiff_core.specs.Calendar.{IsBetween};
ghost use Rattle.jiff_core.specs.Date.{epoch_day};
ghost use Rattle.redl_reading.specs.Steps.{Gives};
ghost use Rattle.redl_stamp.specs.Moment.{seconds_to, date_at, time_at, behind_fraction, offset_in, zone_in, within_years, moment_of, IsMoment};

use crate::digits::{digits, four_digits, marked_digits, two_digits};
use jiff::civil::{Date, Time};
use redl_reading::skip;

// 0000-01-01T00:00:00Z.
const FIRST_MOMENT: i64 = -62_167_219_200;

// 9999-12-31T23:59:59Z.
const LAST_MOMENT: i64 = 253_402_300_799;

// The seconds from 1970-01-01T00:00:00 to the start of a day.
fn seconds_to(date: Date) -> i64
    ensures seconds { result ≡ seconds_to (epoch_day date) }
    ensures range { IsBetween (neg_ℤ (pos 377_705_116_800)) (pos 253_402_214_400) result }
{
    let epoch = jiff::civil::date(1970, 1, 1);
    date.duration_since(epoch).as_secs()
}

// The seconds to the start of a leading day `YYYY-MM-DD` of the calendar, and the bytes after it.
#[tactic(auto, unfolding(crate::specs::Moment::date_at))]
fn date(bytes: &[u8]) -> Option<(i64, &[u8])>
    ensures value { Gives (λ x. (x.0, x.1.now)) result (date_at bytes.now) }
    ensures range { IfSome result (λ x. IsBetween (neg_ℤ (pos 377_705_116_800)) (pos 253_402_214_400) x.0) }
{
    let (year, rest) = four_digits(bytes)?;
    let (month, rest) = marked_digits(rest, b"-")?;
    let (day, rest) = marked_digits(rest, b"-")?;
    match Date::new(year as i16, month as i8, day as i8) {
        Ok(date) => Some((seconds_to(date), rest)),
        Err(_) => None,
    }
}

// The seconds from midnight of a leading time `hh:mm:ss`, and the bytes after it.
#[tactic(auto, unfolding(crate::specs::Moment::time_at))]
fn time(bytes: &[u8]) -> Option<(u32, &[u8])>
    ensures value { Gives (λ x. (x.0, x.1.now)) result (time_at bytes.now) }
    ensures range { IfSome result (λ x. x.0 < 86_400) }
{
    let (hour, rest) = two_digits(bytes)?;
    let (minute, rest) = marked_digits(rest, b":")?;
    let (second, rest) = marked_digits(rest, b":")?;
    match Time::new(hour as i8, minute as i8, second as i8, 0) {
        Ok(_) => Some((
            hour as u32 * 3600 + minute as u32 * 60 + second as u32,
            rest,
        )),
        Err(_) => None,
    }
}

// The bytes after a leading fraction of a second, if there is one, or else all of them.
#[tactic(auto, unfolding(crate::specs::Moment::behind_fraction))]
fn skip_fraction(bytes: &[u8]) -> Option<&[u8]>
    ensures { Gives (λ rest. rest.now) result (behind_fraction bytes.now) }
{
    let Some(rest) = skip(bytes, b".") else {
        return Some(bytes);
    };
    let (fraction, rest) = digits(rest);
    if 1 <= fraction.len() && fraction.len() <= 9 {
        Some(rest)
    } else {
        None
    }
}

// The hours and minutes of a zone, `hh:mm` to the end, in seconds.
#[tactic(auto, unfolding(crate::specs::Moment::offset_in))]
fn offset(bytes: &[u8]) -> Option<u32>
    ensures value { result ≡ offset_in bytes.now }
    ensures range { IfSome result (λ seconds. seconds < 54_000) }
{
    let (hours, rest) = two_digits(bytes)?;
    let (minutes, rest) = marked_digits(rest, b":")?;
    if hours <= 14 && minutes <= 59 && rest.is_empty() {
        Some(hours as u32 * 3600 + minutes as u32 * 60)
    } else {
        None
    }
}

// The seconds by which the clocks of a zone are ahead of UTC. Without a zone the time is UTC.
#[tactic(auto, unfolding(crate::specs::Moment::zone_in))]
fn zone(bytes: &[u8]) -> Option<i64>
    ensures value { result ≡ zone_in bytes.now }
    ensures range { IfSome result (IsBetween (neg_ℤ (pos 54_000)) (pos 54_000)) }
{
    let Some((sign, rest)) = bytes.split_first() else {
        return Some(0);
    };
    match *sign {
        b'Z' if rest.is_empty() => Some(0),
        b'+' => Some(offset(rest)? as i64),
        b'-' => Some(-(offset(rest)? as i64)),
        _ => None,
    }
}

// The seconds, if their year in UTC is 0000 to 9999.
fn within_years(seconds: i64) -> Option<i64>
    ensures value { result ≡ within_years seconds }
    ensures range { IfSome result IsMoment }
{
    if FIRST_MOMENT <= seconds && seconds <= LAST_MOMENT {
        Some(seconds)
    } else {
        None
    }
}

/// The moment that the bytes name. Bytes that are not UTF-8 name none.
#[tactic(auto, unfolding(crate::specs::Moment::moment_of))]
pub(crate) fn moment(bytes: &[u8]) -> Option<i64>
    ensures value { result ≡ moment_of bytes.now }
    ensures range { IfSome result IsMoment }
{
    let (date, rest) = date(bytes)?;
    let rest = skip(rest, b"T")?;
    let (time, rest) = time(rest)?;
    let rest = skip_fraction(rest)?;
    let ahead = zone(rest)?;
    within_years(date + time as i64 - ahead)
}

/// The moment that a date and time name, in seconds from 1970-01-01T00:00:00Z. A fraction of a second is ignored.
///
/// The text is `YYYY-MM-DDThh:mm:ss`, then a dot and 1 to 9 digits or nothing, then `Z`, `+hh:mm`, `-hh:mm` or nothing, which
/// is read as UTC (XML Schema Part 2, 3.2.7). `None` exactly if the text has another form, the day is not in the calendar, the
/// time is not on a clock, the offset is above 14 hours and 59 minutes, or the moment's year in UTC is not 0000 to 9999.
pub fn read_moment(text: &str) -> Option<i64>
    ensures value { result ≡ moment_of text.now }
    ensures range { IfSome result IsMoment }
{
    moment(text.as_bytes())
}
