// A work calendar: the periods worked on each day of the week, and the days that have periods of their own.
#![tactic(auto)]

ghost use Rattle.std.specs.Prelude.{◌≡◌, List, ℕ, ◌+◌, ◌-◌, ◌*◌, ◌^◌, min, max, ◌≤◌, ◌<◌, length, get_or};
ghost use Rattle.number.specs.Bytes.{u16_at};
ghost use Rattle.calendar.specs.Hours.{rank, select, works, Ordered};
ghost use Rattle.calendar.specs.Records.{week_periods, week_period_at, pad, week_of, round_the_clock, weekly_hours, exception_day, exception_period};
ghost use Rattle.calendar.specs.Value.{hours_of};

mod exceptions;
mod hours;
mod value;

pub use exceptions::Exceptions;
pub use hours::{DayRecords, Hours};
use hours::{rank_in, select_in, works_in};
pub use value::Calendar;

// A work period within a day: from and to, in minutes after midnight.
#[derive(Clone, Copy, PartialEq, Eq, Debug)]
pub struct Period {
    pub from: u16,
    pub to: u16,
}

// The period whose two numbers begin at a place.
fn read_period(sheet: &[u8], at: usize) -> Period
    requires { at + 4 ≤ length sheet.now }
    ensures { (result.from ≡ u16_at sheet.now at) × (result.to ≡ u16_at sheet.now (at + 2)) }
{
    Period {
        from: number::read_u16(sheet, at),
        to: number::read_u16(sheet, at + 2),
    }
}

// The period of W record `i`. Records W and E are read by the sheet, the place of the first and an index, as the definitions read them:
// a slice of the records alone would have to be led back to the sheet at each read. They are judged and read by runs, so no function holds one alone,
// as others do an activity's or a link's record.
pub fn week_period(sheet: &[u8], at: usize, i: usize) -> Period
    requires { at + 6 * i + 6 ≤ length sheet.now }
    ensures { result ≡ week_period_at sheet.now at i }
{
    read_period(sheet, at + 6 * i + 2)
}

// The week of the `n` W records from `at` on, a row for each weekday: each record goes to the end of its weekday's row.
pub fn read_week(sheet: &[u8], at: usize, n: usize) -> [[Period; 8]; 7]
    requires { (at + 6 * n ≤ length sheet.now) × ((k : ℕ) → k < 7 → length (week_periods sheet.now at k n) ≤ 8) }
    ensures { result ≡ week_of sheet.now at n }
{
    // Rows of eight places, since the call may not allocate; how many each holds is in an array of its own, since it is needed only while they are read.
    let mut week = [[Period { from: 0, to: 0 }; 8]; 7];
    let mut counts = [0 as usize; 7];
    // By the index, which `week_period` takes: chunks of six bytes would have to be led back to their places in the sheet.
    for i in 0..n {
        let k = sheet[at + 6 * i + 1] as usize;
        if k < 7 {
            let c = counts[k];
            week[k][c] = week_period(sheet, at, i);
            counts[k] = c + 1;
        }
    }
    week
}

// The week of the round-the-clock calendar.
#[tactic(auto, unfolding(crate::specs::Records::round_the_clock))]
pub fn round_the_clock() -> [[Period; 8]; 7]
    ensures { result ≡ round_the_clock }
{
    let mut row = [Period { from: 0, to: 0 }; 8];
    row[0] = Period { from: 0, to: 1440 };
    [row; 7]
}

// Whether some weekday has hours: what a calendar of 01 must have.
pub fn has_hours(week: [[Period; 8]; 7]) -> bool
    ensures { result ≡ weekly_hours week }
{
    week.iter().any(|row| works_in(row))
}

// The day of E record `i`.
pub fn exception_day(sheet: &[u8], at: usize, i: usize) -> u64
    requires { at + 9 * i + 9 ≤ length sheet.now }
    ensures { (result ≡ exception_day sheet.now at i) × (result < 2 ^ 32) }
{
    number::read_biased(sheet, at + 9 * i + 1)
}

// The period of E record `i`.
pub fn exception_period(sheet: &[u8], at: usize, i: usize) -> Period
    requires { at + 9 * i + 9 ≤ length sheet.now }
    ensures { result ≡ exception_period sheet.now at i }
{
    read_period(sheet, at + 9 * i + 5)
}

// Whether some minute of day `d` is worked.
// `d < 4294967296` is a clause: a type of bounded days would put its number between each contract and its definition.
pub fn is_working(calendar: &Calendar, d: u64) -> bool
    requires { d < 4294967296 }
    ensures { result ≡ works (hours_of calendar.now d) }
{
    let hours = calendar.hours_on(d);
    hours.works()
}

// How many minutes of the period stand before minute `m` of the day.
fn period_rank(p: Period, m: u16) -> u16
    ensures { result ≡ min m p.to - p.from }
{
    m.min(p.to).saturating_sub(p.from)
}

// How many minutes E record `i` gives its day.
pub fn exception_work(sheet: &[u8], at: usize, i: usize) -> u64
    requires { at + 9 * i + 9 ≤ length sheet.now }
    ensures { (result ≡ min 1440 (exception_period sheet.now at i).to - (exception_period sheet.now at i).from) × (result ≤ 1440) }
{
    let p = exception_period(sheet, at, i);
    period_rank(p, 1440) as u64
}

// How long a period is.
fn period_length(p: Period) -> u16
    ensures { result ≡ p.to - p.from }
{
    p.to.saturating_sub(p.from)
}

// How many minutes of the row stand before minute `m` of the day.
// `Ordered 0 row` is a clause, here and below: a row is one of a week's seven, of all of which a calendar's type says it, and a type of one row would be made anew at each call.
pub fn row_rank(row: [Period; 8], m: u16) -> u16
    requires { Ordered 0 row }
    ensures { (result ≡ rank row m) × (result ≤ 1440) }
{
    rank_in(&row, m)
}

// How many minutes the row has, which is its rank at the day's end: the sum of `hours::rank_in`, but of the periods' lengths, which need no minute.
pub fn row_work(row: [Period; 8]) -> u16
    requires { Ordered 0 row }
    ensures { (result ≡ rank row 1440) × (result ≤ 1440) }
{
    row.iter().map(|p| period_length(*p)).sum()
}

// The minute of the day by which `k` minutes of the row are worked.
pub fn row_select(row: [Period; 8], k: u64) -> u64
    requires { Ordered 0 row × (0 < k) × (k ≤ rank row 1440) }
    ensures { (result ≡ select row k) × (0 < result) × (result ≤ 1440) }
{
    select_in(&row, k)
}
