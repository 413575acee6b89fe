// The types that the scheduling run reads, and what it asks of an activity and of a constraint.
#![tactic(auto)]

ghost use Rattle.std.specs.Prelude.{◌≡◌};
ghost use Rattle.project.specs.Status.{is_milestone, on_start, bounds_start, status_of};

use date::Date;

mod activity_record;
mod calendar_record;
pub mod codes;
pub mod fields;
mod link_record;
mod project_record;

pub use activity_record::ActivityRecord;
pub use calendar_record::CalendarRecord;
pub use link_record::LinkRecord;
pub use project_record::ProjectRecord;

// What an activity is, as far as scheduling cares.
#[derive(Clone, Copy)]
pub enum ActivityKind {
    Task,
    StartMilestone,
    FinishMilestone,
}

// A date that an activity is held to, beyond its links.
#[derive(Clone, Copy)]
pub enum Constraint {
    StartOnOrAfter(Date),
    StartOnOrBefore(Date),
    FinishOnOrAfter(Date),
    FinishOnOrBefore(Date),
    StartOn(Date),
    FinishOn(Date),
    MandatoryStart(Date),
    MandatoryFinish(Date),
    AsLateAsPossible,
}

// The parent is 0 for none, as the sheet has it and the definitions' `parent_of`: ids are not 0.
#[derive(Clone, Copy)]
pub struct Activity {
    pub id: u32,
    pub kind: ActivityKind,
    pub calendar: u8,
    pub parent: u32,
    pub minutes: i32,
    pub actual_start: Option<Date>,
    pub actual_finish: Option<Date>,
    pub remaining: Option<i32>,
    pub expected_finish: Option<Date>,
    pub constraint: Option<Constraint>,
    pub secondary_constraint: Option<Constraint>,
    pub levelled: Option<Date>,
}

// Which ends a link ties.
#[derive(Clone, Copy)]
pub enum RelationshipType {
    FinishToStart,
    StartToStart,
    FinishToFinish,
    StartToFinish,
}

// How a link's lag counts: working time on the lag calendar, elapsed time, or a share of the predecessor's minutes in hundredths of one percent.
#[derive(Clone, Copy)]
pub enum LagKind {
    WorkingDays(i32),
    WorkingMinutes(i32),
    ElapsedDays(i32),
    ElapsedMinutes(i32),
    Percent(i32),
}

#[derive(Clone, Copy)]
pub struct Relationship {
    pub predecessor: u32,
    pub successor: u32,
    pub kind: RelationshipType,
    pub lag: LagKind,
}

// The calendar that a working lag counts on.
#[derive(Clone, Copy)]
pub enum LagCalendar {
    Predecessor,
    Successor,
    TwentyFourHour,
    Project,
}

// How total float is measured.
#[derive(Clone, Copy)]
pub enum FloatKind {
    Finish,
    Start,
    Smallest,
}

// How the work left of an activity under way is scheduled.
#[derive(Clone, Copy)]
pub enum ProgressMode {
    RetainedLogic,
    ProgressOverride,
}

// What makes an activity critical: total float at or below so many days, or the longest path.
#[derive(Clone, Copy)]
pub enum CriticalBy {
    TotalFloat(i32),
    LongestPath,
}

// The sheet's P record.
#[derive(Clone, Copy)]
pub struct Project {
    pub start: Date,
    pub data_date: Option<Date>,
    pub must_finish_by: Option<Date>,
    pub lag_calendar: LagCalendar,
    pub float_kind: FloatKind,
    pub progress_mode: ProgressMode,
    pub critical_by: CriticalBy,
}

// An end of an activity that a constraint bounds, and on which day.
#[derive(Clone, Copy)]
pub enum End {
    Start(Date),
    Finish(Date),
}

// How far an activity's work has come, by its recorded days.
#[derive(Clone, Copy)]
pub enum Status {
    NotStarted,
    InProgress,
    Completed,
}

// Whether an activity is a moment.
#[tactic(auto, unfolding(crate::specs::Status::is_milestone))]
pub fn is_milestone(kind: ActivityKind) -> bool
    ensures { result ≡ is_milestone kind }
{
    match kind {
        ActivityKind::Task => false,
        ActivityKind::StartMilestone => true,
        ActivityKind::FinishMilestone => true,
    }
}

// The end that a constraint bounds, with its day, if any.
#[tactic(auto, unfolding(crate::specs::Status::on_start))]
pub fn on_start(constraint: Option<Constraint>) -> Option<End>
    ensures { result ≡ on_start constraint }
{
    match constraint? {
        Constraint::StartOnOrAfter(day) => Some(End::Start(day)),
        Constraint::StartOnOrBefore(day) => Some(End::Start(day)),
        Constraint::FinishOnOrAfter(day) => Some(End::Finish(day)),
        Constraint::FinishOnOrBefore(day) => Some(End::Finish(day)),
        Constraint::StartOn(day) => Some(End::Start(day)),
        Constraint::FinishOn(day) => Some(End::Finish(day)),
        Constraint::MandatoryStart(day) => Some(End::Start(day)),
        Constraint::MandatoryFinish(day) => Some(End::Finish(day)),
        Constraint::AsLateAsPossible => None,
    }
}

// Whether a constraint bounds the start.
#[tactic(auto, unfolding(crate::specs::Status::bounds_start))]
pub fn bounds_start(constraint: Option<Constraint>) -> bool
    ensures { result ≡ bounds_start constraint }
{
    matches!(on_start(constraint), Some(End::Start(_)))
}

// The status that two recorded days give an activity that is no summary.
#[tactic(auto, unfolding(crate::specs::Status::status_of))]
pub fn status_of(actual_start: Option<Date>, actual_finish: Option<Date>) -> Status
    ensures { result ≡ status_of actual_start actual_finish }
{
    let None = actual_finish else {
        return Status::Completed;
    };
    let None = actual_start else {
        return Status::InProgress;
    };
    Status::NotStarted
}
