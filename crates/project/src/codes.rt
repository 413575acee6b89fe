// The sheet's codes as values. "Codes follow the enums' order in 002."
// A value that a code alone gives is made by `From`, since the definitions are total and `fields` refuses every other code before; one that takes more beside the code, by a function whose parameters have names, which a tuple's have not.
ghost use Rattle.std.specs.Prelude.{◌≡◌};
ghost use Rattle.project.specs.Records.{activity_kind_of, constraint_of, relationship_type_of, lag_of, lag_calendar_of, float_kind_of, progress_mode_of, critical_by_of};

use crate::{
    ActivityKind, Constraint, CriticalBy, FloatKind, LagCalendar, LagKind, ProgressMode,
    RelationshipType,
};
use date::Date;

impl From<u64> for ActivityKind {
    ghost from_gives = { λ code result. result ≡ activity_kind_of code };

    #[tactic(auto, unfolding(crate::specs::Records::activity_kind_of))]
    fn from(code: u64) -> ActivityKind {
        match code {
            0 => ActivityKind::Task,
            1 => ActivityKind::StartMilestone,
            _ => ActivityKind::FinishMilestone,
        }
    }
}

#[tactic(auto, unfolding(crate::specs::Records::constraint_of))]
pub fn constraint_of(code: u64, day: Date) -> Option<Constraint>
    ensures { result ≡ constraint_of code day }
{
    match code {
        0 => None,
        1 => Some(Constraint::StartOnOrAfter(day)),
        2 => Some(Constraint::StartOnOrBefore(day)),
        3 => Some(Constraint::FinishOnOrAfter(day)),
        4 => Some(Constraint::FinishOnOrBefore(day)),
        5 => Some(Constraint::StartOn(day)),
        6 => Some(Constraint::FinishOn(day)),
        7 => Some(Constraint::MandatoryStart(day)),
        8 => Some(Constraint::MandatoryFinish(day)),
        _ => Some(Constraint::AsLateAsPossible),
    }
}

impl From<u64> for RelationshipType {
    ghost from_gives = { λ code result. result ≡ relationship_type_of code };

    #[tactic(auto, unfolding(crate::specs::Records::relationship_type_of))]
    fn from(code: u64) -> RelationshipType {
        match code {
            0 => RelationshipType::FinishToStart,
            1 => RelationshipType::StartToStart,
            2 => RelationshipType::FinishToFinish,
            _ => RelationshipType::StartToFinish,
        }
    }
}

// The lag that a basis, a unit and a number give.
#[tactic(auto, unfolding(crate::specs::Records::lag_of))]
pub fn lag_of(basis: u64, unit: u64, lag: i32) -> LagKind
    ensures { result ≡ lag_of basis unit lag }
{
    if basis == 0 {
        if unit == 0 {
            return LagKind::WorkingDays(lag);
        }
        return LagKind::WorkingMinutes(lag);
    }
    if basis == 1 {
        if unit == 0 {
            return LagKind::ElapsedDays(lag);
        }
        return LagKind::ElapsedMinutes(lag);
    }
    LagKind::Percent(lag)
}

impl From<u64> for LagCalendar {
    ghost from_gives = { λ code result. result ≡ lag_calendar_of code };

    #[tactic(auto, unfolding(crate::specs::Records::lag_calendar_of))]
    fn from(code: u64) -> LagCalendar {
        match code {
            0 => LagCalendar::Predecessor,
            1 => LagCalendar::Successor,
            2 => LagCalendar::TwentyFourHour,
            _ => LagCalendar::Project,
        }
    }
}

impl From<u64> for FloatKind {
    ghost from_gives = { λ code result. result ≡ float_kind_of code };

    #[tactic(auto, unfolding(crate::specs::Records::float_kind_of))]
    fn from(code: u64) -> FloatKind {
        match code {
            0 => FloatKind::Finish,
            1 => FloatKind::Start,
            _ => FloatKind::Smallest,
        }
    }
}

impl From<u64> for ProgressMode {
    ghost from_gives = { λ code result. result ≡ progress_mode_of code };

    #[tactic(auto, unfolding(crate::specs::Records::progress_mode_of))]
    fn from(code: u64) -> ProgressMode {
        match code {
            0 => ProgressMode::RetainedLogic,
            _ => ProgressMode::ProgressOverride,
        }
    }
}

#[tactic(auto, unfolding(crate::specs::Records::critical_by_of))]
pub fn critical_by_of(code: u64, threshold: i32) -> CriticalBy
    ensures { result ≡ critical_by_of code threshold }
{
    match code {
        0 => CriticalBy::TotalFloat(threshold),
        _ => CriticalBy::LongestPath,
    }
}
