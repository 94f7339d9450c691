//! The next instant of a daily or a monthly schedule.
ghost use Rattle.std.specs.Prelude.{◌≡◌, ℕ, ℤ, pos, neg_ℤ, negsuc, ◌^◌, ◌≤◌, ◌≤ℤ◌, ◌<ℤ◌, ◌-ℤ◌, ◌*ℤ◌};
ghost use Rattle.op_keys.specs.declared.declarations.Expiry.{Expiry};
ghost use Rattle.op_keys.specs.declared.declarations.Expiry.TheVariants as expiry;
ghost use Rattle.sched_rows.specs.Instants.{has_day, instant_of};
ghost use Rattle.sched_rows.specs.Validity.{next_instant};

use jiff_core::civil::Date;

const DAY_MS: i64 = 86_400_000;

/// 9999-12-31.
const LAST_DAY: i64 = 2_932_896;

/// Whether the day has this day of the month.
fn has_day(d: i64, day: u32) -> bool
    requires low { negsuc 0 ≤ℤ d }
    requires high { d ≤ℤ pos 2932896 }
    ensures { result ≡ has_day day d }
{
    match Date::from_unix_epoch_day(d) {
        Ok(date) => u32::from(date.day) == day,
        Err(_) => false,
    }
}

/// What a schedule adds to the start of each day.
fn shift(minute: u32, offset: i32) -> i64
    requires minute_in { minute ≤ 1439 }
    requires offset_low { neg_ℤ (pos 1080) ≤ℤ offset }
    requires offset_high { offset ≤ℤ pos 1080 }
    ensures value { result ≡ pos 60000 *ℤ (pos minute -ℤ offset) }
    ensures low { neg_ℤ (pos 64800000) ≤ℤ result }
    ensures high { result ≤ℤ pos 151140000 }
{
    60_000 * (i64::from(minute) - i64::from(offset))
}

/// The first day whose instant is above `time`.
fn first_day(time: u64, minute: u32, offset: i32) -> i64
    requires time_in { time ≤ 2 ^ 60 }
    requires minute_in { minute ≤ 1439 }
    requires offset_low { neg_ℤ (pos 1080) ≤ℤ offset }
    requires offset_high { offset ≤ℤ pos 1080 }
    ensures above { pos time <ℤ instant_of minute offset result }
    ensures before { instant_of minute offset (result -ℤ pos 1) ≤ℤ pos time }
    ensures low { negsuc 0 ≤ℤ result }
    ensures high { result ≤ℤ pos (2 ^ 40) }
{
    let since = (time as i64 + 2 * DAY_MS - shift(minute, offset)) as u64;
    (since / DAY_MS as u64) as i64 - 1
}

/// The instant of a day.
fn instant_of(d: i64, minute: u32, offset: i32) -> u64
    requires low { negsuc 0 ≤ℤ d }
    requires high { d ≤ℤ pos 2932896 }
    requires minute_in { minute ≤ 1439 }
    requires offset_low { neg_ℤ (pos 1080) ≤ℤ offset }
    requires offset_high { offset ≤ℤ pos 1080 }
    requires positive { pos 0 ≤ℤ instant_of minute offset d }
    ensures { pos result ≡ instant_of minute offset d }
{
    (DAY_MS * d + shift(minute, offset)) as u64
}

/// The least instant above `time` of the minute of each day, or `None` past the calendar's end.
pub(crate) fn next_daily(time: u64, minute: u32, offset: i32) -> Option<u64>
    requires time_in { time ≤ 2 ^ 60 }
    requires minute_in { minute ≤ 1439 }
    requires offset_low { neg_ℤ (pos 1080) ≤ℤ offset }
    requires offset_high { offset ≤ℤ pos 1080 }
    ensures { result ≡ next_instant (expiry.Daily minute offset) time }
{
    let d = first_day(time, minute, offset);
    if d > LAST_DAY {
        None
    } else {
        Some(instant_of(d, minute, offset))
    }
}

/// The same of the minute of this day of each month.
pub(crate) fn next_monthly(time: u64, day: u32, minute: u32, offset: i32) -> Option<u64>
    requires time_in { time ≤ 2 ^ 60 }
    requires minute_in { minute ≤ 1439 }
    requires offset_low { neg_ℤ (pos 1080) ≤ℤ offset }
    requires offset_high { offset ≤ℤ pos 1080 }
    ensures { result ≡ next_instant (expiry.Monthly day minute offset) time }
{
    let first = first_day(time, minute, offset);
    for d in first..=LAST_DAY {
        if has_day(d, day) {
            return Some(instant_of(d, minute, offset));
        }
    }
    None
}
