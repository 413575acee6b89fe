// The tests of one record's fields: 3 of 01's table is given where one of them fails.
// The tests of a day, of a code and of a constraint take a place: which it is, only the record knows, and an array of the field's bytes would have to be cut out at each call.
#![tactic(auto, unfolding(project::specs::Fields::day_ok, project::specs::Fields::day_or_absent, project::specs::Fields::header_ok, project::specs::Fields::calendar_ok, project::specs::Fields::constraint_ok, project::specs::Fields::activity_ok, project::specs::Fields::link_ok))]

ghost use Rattle.std.specs.Prelude.{◌≡◌, ◌+◌, ◌≤◌, ◌<◌, leb, length};
ghost use Rattle.number.specs.Bytes.{byte_at, biased_at};
ghost use Rattle.fields.specs.Parts.{header_days, activity_codes, activity_dates};
ghost use Rattle.project.specs.Fields.{day_ok, day_or_absent, header_ok, calendar_ok, constraint_ok, activity_ok, link_ok};

use project::{ActivityRecord, CalendarRecord, LinkRecord, ProjectRecord};

// The first and the last day that a sheet may name, those of the years 1600 to 2999, counted from the first that an i32 can name.
pub const FIRST_DAY: u64 = 2147348508;

pub const LAST_DAY: u64 = 2147859847;

// `date::in_years` is of the same form with the years that a date may have: each is one comparison with a definition of its own.
pub fn day_ok(d: u64) -> bool
    ensures { result ≡ day_ok d }
{
    (FIRST_DAY <= d) & (d <= LAST_DAY)
}

// A day, or the absent mark.
pub fn day_or_absent(d: u64) -> bool
    ensures { result ≡ day_or_absent d }
{
    (d == 0) | day_ok(d)
}

// The day at a place of the sheet.
pub fn day_at(sheet: &[u8], at: usize) -> bool
    requires { at + 4 ≤ length sheet.now }
    ensures { result ≡ day_ok (biased_at sheet.now at) }
{
    day_ok(number::read_biased(sheet, at))
}

pub fn day_or_absent_at(sheet: &[u8], at: usize) -> bool
    requires { at + 4 ≤ length sheet.now }
    ensures { result ≡ day_or_absent (biased_at sheet.now at) }
{
    day_or_absent(number::read_biased(sheet, at))
}

// A code of 0 up to `most`.
fn code_ok(sheet: &[u8], at: usize, most: u64) -> bool
    requires { at < length sheet.now }
    ensures { result ≡ leb (byte_at sheet.now at) most }
{
    number::byte(sheet, at) <= most
}

// P: its days, then its codes. The tests read the codes and days themselves: the records' getters answer what those mean, where one out of range no longer shows.
fn header_days(project: &ProjectRecord) -> bool
    ensures { result ≡ header_days project.now.sheet.now project.now.at }
{
    day_at(project.sheet, project.at + 1)
        & day_or_absent_at(project.sheet, project.at + 5)
        & day_or_absent_at(project.sheet, project.at + 9)
}

pub fn header_ok(project: &ProjectRecord) -> bool
    ensures { result ≡ header_ok project.now.sheet.now project.now.at }
{
    header_days(project)
        & code_ok(project.sheet, project.at + 13, 3)
        & code_ok(project.sheet, project.at + 14, 2)
        & code_ok(project.sheet, project.at + 15, 1)
        & code_ok(project.sheet, project.at + 16, 1)
}

// C: its day length, which the record gives as it stands.
pub fn calendar_ok(calendar: &CalendarRecord) -> bool
    ensures { result ≡ calendar_ok calendar.now.sheet.now calendar.now.at }
{
    calendar.day_length() <= 1440
}

// A constraint: its kind, then its day, which kinds 0 and 9 leave unread.
pub fn constraint_ok(sheet: &[u8], at: usize) -> bool
    requires { at + 5 ≤ length sheet.now }
    ensures { result ≡ constraint_ok sheet.now at }
{
    let kind = number::byte(sheet, at);
    (kind == 0) | (kind == 9) | ((kind < 9) & day_at(sheet, at + 1))
}

// A: its id, its kind, and its minutes, which are 0 for a milestone.
fn activity_codes(activity: &ActivityRecord) -> bool
    ensures { result ≡ activity_codes activity.now.sheet.now activity.now.at }
{
    let id = number::read_u32(activity.sheet, activity.at + 1);
    let kind = number::byte(activity.sheet, activity.at + 5);
    let minutes = number::read_u32(activity.sheet, activity.at + 11);
    (id != 0) & (kind <= 2) & ((kind == 0) | (minutes == 0))
}

// A: its codes, then its recorded dates and its expected finish.
fn activity_dates(activity: &ActivityRecord) -> bool
    ensures { result ≡ activity_dates activity.now.sheet.now activity.now.at }
{
    activity_codes(activity)
        & day_or_absent_at(activity.sheet, activity.at + 15)
        & day_or_absent_at(activity.sheet, activity.at + 19)
        & day_or_absent_at(activity.sheet, activity.at + 27)
}

pub fn activity_ok(activity: &ActivityRecord) -> bool
    ensures { result ≡ activity_ok activity.now.sheet.now activity.now.at }
{
    activity_dates(activity)
        & constraint_ok(activity.sheet, activity.at + 31)
        & constraint_ok(activity.sheet, activity.at + 36)
        & day_or_absent_at(activity.sheet, activity.at + 41)
}

pub fn link_ok(link: &LinkRecord) -> bool
    ensures { result ≡ link_ok link.now.sheet.now link.now.at }
{
    let basis = number::byte(link.sheet, link.at + 10);
    let unit = number::byte(link.sheet, link.at + 11);
    code_ok(link.sheet, link.at + 9, 3) & (basis <= 2) & ((basis == 2) | (unit <= 1))
}
