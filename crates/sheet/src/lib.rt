// Reading the sheet: rows 2, 3 and 4 of 01's table, and where every record stands.
#![tactic(auto)]

ghost use Rattle.std.specs.Prelude.{◌≡◌, IfOk, suc, ◌+◌, ◌≤◌, length};
ghost use Rattle.project.specs.Fields.{header_size};
ghost use Rattle.sheet.specs.Reading.{calendar_end, calendars_from, read_sheet};
ghost use Rattle.sheet.specs.Places.{place_at};
ghost use Rattle.sheet.specs.Known.{CalendarRead};

use judges::SheetError;
use project::{CalendarRecord, ProjectRecord};
use runs::RecordKind;

pub mod runs;
mod value;

pub use value::Sheet;

// How many calendars there are, and where they end.
#[derive(Clone, Copy)]
pub struct CalendarsEnd {
    pub count: usize,
    pub at: usize,
}

// What a sheet holds: its calendars, where its activities begin, and how many activities and links there are.
#[derive(Clone, Copy)]
pub struct Contents {
    pub calendars: usize,
    pub at: usize,
    pub activities: usize,
    pub links: usize,
}

// Where a calendar's records stand: how many W it has, where its E begin and how many there are, and where it ends.
#[derive(Clone, Copy)]
pub struct Place {
    pub weeks: usize,
    pub at: usize,
    pub exceptions: usize,
    pub next: usize,
}

// Where the records of a calendar end, by its C.
#[tactic(auto, using(crate::specs::CalendarLaws::end_weeks, crate::specs::CalendarLaws::end_exceptions, crate::specs::CalendarLaws::end_count))]
fn read_calendar(calendar: &CalendarRecord) -> Result<usize, SheetError>
    ensures end { result ≡ calendar_end calendar.now.sheet.now calendar.now.at }
    ensures within { IfOk result (λ n. n ≤ length calendar.now.sheet.now) }
{
    let weeks = runs::read_run(calendar.sheet, RecordKind::Week, calendar.at + 3)?;
    let from = calendar.at + 3 + 6 * weeks;
    let exceptions = runs::read_run(calendar.sheet, RecordKind::Exception, from)?;
    Ok(from + 9 * exceptions)
}

// The calendars, from the end of the header on.
#[tactic(auto, using(crate::specs::CalendarSteps::calendar_start, crate::specs::CalendarSteps::calendar_end_lem, crate::specs::CalendarSteps::calendar_cut, crate::specs::CalendarSteps::calendar_refused, crate::specs::CalendarSteps::calendar_stop, crate::specs::CalendarSteps::calendar_few, crate::specs::CalendarSteps::calendar_more))]
fn read_calendars(sheet: &[u8]) -> Result<CalendarsEnd, SheetError>
    requires { header_size ≤ length sheet.now }
    ensures end { result ≡ calendars_from sheet.now (suc (length sheet.now)) 0 header_size }
    ensures within { IfOk result (λ c. c.at ≤ length sheet.now) }
{
    let mut at: usize = 21;
    let mut k: usize = 0;
    // Where a calendar ends is known only once its records are read, so no range or iterator has the places.
    while runs::kind_at(sheet, at) == b'C' {
        if sheet.len() - at < 3 {
            return Err(SheetError::Malformed);
        }
        let calendar = CalendarRecord::new(sheet, at);
        judges::judge_calendar(&calendar, k)?;
        at = read_calendar(&calendar)?;
        k += 1;
    }
    Ok(CalendarsEnd { count: k, at: at })
}

// The whole sheet.
#[tactic(auto, using(crate::specs::ReadLaws::read_other, crate::specs::ReadLaws::read_cut, crate::specs::ReadLaws::read_range, crate::specs::ReadLaws::calendars_fail, crate::specs::ReadLaws::activities_fail, crate::specs::ReadLaws::links_fail, crate::specs::ReadLaws::read_none, crate::specs::ReadLaws::read_left, crate::specs::ReadLaws::read_all))]
pub fn read(sheet: &[u8]) -> Result<Contents, SheetError>
    ensures { result ≡ read_sheet sheet.now }
{
    if sheet.len() < 21 {
        return Err(SheetError::Malformed);
    }
    if sheet[0] != b'P' {
        return Err(SheetError::Malformed);
    }
    let project = ProjectRecord::new(sheet, 0);
    if !fields::header_ok(&project) {
        return Err(SheetError::OutOfRange);
    }
    let end = read_calendars(sheet)?;
    let activities = runs::read_run(sheet, RecordKind::Activity, end.at)?;
    let from = end.at + 45 * activities;
    let links = runs::read_run(sheet, RecordKind::Link, from)?;
    if end.count == 0 {
        return Err(SheetError::Malformed);
    }
    if from + 16 * links != sheet.len() {
        return Err(SheetError::Malformed);
    }
    Ok(Contents {
        calendars: end.count,
        at: end.at,
        activities: activities,
        links: links,
    })
}

// The calendar whose C stands at a place of a sheet that was read.
// It goes as `read_calendar` does, but nothing can refuse any more: it only counts.
#[tactic(auto, using(crate::specs::PlaceLaws::count_weeks, crate::specs::PlaceLaws::run_weeks, crate::specs::PlaceLaws::weeks_end_lem, crate::specs::PlaceLaws::count_exceptions, crate::specs::PlaceLaws::run_exceptions, crate::specs::PlaceLaws::exceptions_end_lem, crate::specs::PlaceLaws::place_is))]
pub fn calendar(sheet: &[u8], at: usize) -> Place
    requires { CalendarRead sheet.now at }
    ensures { result ≡ place_at sheet.now at }
{
    let weeks = runs::count_run(sheet, RecordKind::Week, at + 3);
    let from = at + 3 + 6 * weeks;
    let exceptions = runs::count_run(sheet, RecordKind::Exception, from);
    Place {
        weeks: weeks,
        at: from,
        exceptions: exceptions,
        next: from + 9 * exceptions,
    }
}
