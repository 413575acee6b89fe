// The judges of one record: row 4 or 3 of 01's table for one that is in its place and whole, Ok where it may stand.
#![tactic(auto, unfolding(crate::specs::Judging::judged, crate::specs::Judging::judge_calendar, crate::specs::Judging::judge_week, crate::specs::Judging::judge_exception, crate::specs::Judging::judge_activity, crate::specs::Judging::judge_link, crate::specs::Judging::period_ok, crate::specs::Judging::no_work))]

ghost use Rattle.std.specs.Prelude.{◌≡◌, ◌+◌, ◌*◌, ◌≤◌, length};
ghost use Rattle.calendar.specs.Records.{week_periods};
ghost use Rattle.judges.specs.Judging.{sheet_number, judged, judge_calendar, period_ok, week_after, judge_week, no_work, exception_after, judge_exception, judge_activity, judge_link};

use calendar::Period;
use project::{ActivityRecord, CalendarRecord, LinkRecord};

// Why a sheet is refused.
#[derive(Clone, Copy, Debug, PartialEq, Eq)]
pub enum SheetError {
    // An unknown kind, a cut record, a wrong order, no P or no C.
    Malformed,
    // A field out of its range.
    OutOfRange,
    // A record beyond a limit.
    BeyondLimit,
}

impl SheetError {
    // Its row in 01's table; a method, as `order::PlanError` has one.
    pub fn number(self) -> u64
        ensures { (result ≡ sheet_number self) × (result ≤ 4) }
    {
        match self {
            SheetError::Malformed => 2,
            SheetError::OutOfRange => 3,
            SheetError::BeyondLimit => 4,
        }
    }
}

fn verdict(beyond: bool, ok: bool) -> Result<(), SheetError>
    ensures { result ≡ judged beyond ok }
{
    if beyond {
        return Err(SheetError::BeyondLimit);
    }
    if ok {
        return Ok(());
    }
    Err(SheetError::OutOfRange)
}

// C number `k`.
pub fn judge_calendar(calendar: &CalendarRecord, k: usize) -> Result<(), SheetError>
    ensures { result ≡ judge_calendar calendar.now.sheet.now calendar.now.at k }
{
    verdict(15 <= k, fields::calendar_ok(calendar))
}

fn period_ok(p: Period) -> bool
    ensures { result ≡ period_ok p }
{
    (p.from < p.to) & (p.to <= 1440)
}

fn no_work(p: Period) -> bool
    ensures { result ≡ no_work p }
{
    (p.from == 0) & (p.to == 0)
}

// Whether W record `i` comes after the one before it.
#[tactic(auto, using(crate::specs::StepLaws::week_first, crate::specs::StepLaws::week_next))]
fn week_after(sheet: &[u8], at: usize, i: usize) -> bool
    requires { at + 6 * i + 6 ≤ length sheet.now }
    ensures { result ≡ week_after sheet.now at i }
{
    if i == 0 {
        return true;
    }
    let j = i - 1;
    let last = number::byte(sheet, at + 6 * j + 1);
    let day = number::byte(sheet, at + 6 * i + 1);
    let before = calendar::week_period(sheet, at, j);
    let p = calendar::week_period(sheet, at, i);
    (last < day) | ((last == day) & (before.to <= p.from))
}

// How many of the first `n` W records have weekday `k`.
fn weekday_count(sheet: &[u8], at: usize, k: u64, n: usize) -> usize
    requires { at + 6 * n ≤ length sheet.now }
    ensures { result ≡ length (week_periods sheet.now at k n) }
{
    (0..n)
        .filter(|i| number::byte(sheet, at + 6 * *i + 1) == k)
        .count()
}

pub fn judge_week(sheet: &[u8], at: usize, i: usize) -> Result<(), SheetError>
    requires { at + 6 * i + 6 ≤ length sheet.now }
    ensures { result ≡ judge_week sheet.now at i }
{
    let day = number::byte(sheet, at + 6 * i + 1);
    let p = calendar::week_period(sheet, at, i);
    let count = weekday_count(sheet, at, day, i);
    verdict(
        (day < 7) & (8 <= count),
        (day < 7) & period_ok(p) & week_after(sheet, at, i),
    )
}

// Whether E record `i` comes after the one before it.
// It mirrors `week_after`: where the day and the periods stand differs, and an E record may give its day no work, so one function would take all of that and be no plainer.
#[tactic(auto, using(crate::specs::StepLaws::exception_first, crate::specs::StepLaws::exception_next))]
fn exception_after(sheet: &[u8], at: usize, i: usize) -> bool
    requires { at + 9 * i + 9 ≤ length sheet.now }
    ensures { result ≡ exception_after sheet.now at i }
{
    if i == 0 {
        return true;
    }
    let j = i - 1;
    let last = calendar::exception_day(sheet, at, j);
    let day = calendar::exception_day(sheet, at, i);
    let before = calendar::exception_period(sheet, at, j);
    let p = calendar::exception_period(sheet, at, i);
    (last < day) | ((last == day) & !no_work(before) & !no_work(p) & (before.to <= p.from))
}

pub fn judge_exception(sheet: &[u8], at: usize, i: usize) -> Result<(), SheetError>
    requires { at + 9 * i + 9 ≤ length sheet.now }
    ensures { result ≡ judge_exception sheet.now at i }
{
    let day = calendar::exception_day(sheet, at, i);
    let p = calendar::exception_period(sheet, at, i);
    verdict(
        256 <= i,
        fields::day_ok(day) & (no_work(p) | period_ok(p)) & exception_after(sheet, at, i),
    )
}

// `judge_link` is of the same form, over another record: a trait of the two with its laws would be longer than both.
pub fn judge_activity(sheet: &[u8], at: usize, i: usize) -> Result<(), SheetError>
    requires { at + 45 * i + 45 ≤ length sheet.now }
    ensures { result ≡ judge_activity sheet.now at i }
{
    let activity = ActivityRecord::new(sheet, at + 45 * i);
    verdict(4096 <= i, fields::activity_ok(&activity))
}

pub fn judge_link(sheet: &[u8], at: usize, i: usize) -> Result<(), SheetError>
    requires { at + 16 * i + 16 ≤ length sheet.now }
    ensures { result ≡ judge_link sheet.now at i }
{
    let link = LinkRecord::new(sheet, at + 16 * i);
    verdict(16384 <= i, fields::link_ok(&link))
}
