// The checks before the passes: rows 5 to 15 of 01's table, the kept links and the order of the activities.
#![tactic(auto)]

ghost use Rattle.std.specs.Prelude.{◌≡◌, ◌^◌, ◌≤◌, ◌<◌};
ghost use Rattle.order.specs.Refusals.{plan_number, plan_id};

// Why a plan is refused: a variant for each of rows 5 to 15, in their order, with the id that is handed back.
#[derive(Clone, Copy, Debug, PartialEq, Eq)]
pub enum PlanError {
    NoHours,
    SameId(u64),
    NegativeMinutes(u64),
    TooLong,
    UnknownCalendar(u64),
    UnknownParent(u64),
    MilestoneParent(u64),
    ParentLoop(u64),
    UnknownActivity(u64),
    SelfLink(u64),
    LinkLoop(u64),
}

impl PlanError {
    // The row's number: no `From`, since a refusal has an id, too, and `u64::from` would not say which is meant.
    pub fn number(self) -> u64
        ensures { (result ≡ plan_number self) × (5 ≤ result) × (result ≤ 15) }
    {
        match self {
            PlanError::NoHours => 5,
            PlanError::SameId(_) => 6,
            PlanError::NegativeMinutes(_) => 7,
            PlanError::TooLong => 8,
            PlanError::UnknownCalendar(_) => 9,
            PlanError::UnknownParent(_) => 10,
            PlanError::MilestoneParent(_) => 11,
            PlanError::ParentLoop(_) => 12,
            PlanError::UnknownActivity(_) => 13,
            PlanError::SelfLink(_) => 14,
            PlanError::LinkLoop(_) => 15,
        }
    }

    // The id that the row hands back: 0 where it has none, as 01's answer and C hold it.
    pub fn id(self) -> u64
        ensures { (result ≡ plan_id self) × (result < 2 ^ 64) }
    {
        match self {
            PlanError::NoHours | PlanError::TooLong => 0,
            PlanError::SameId(id)
            | PlanError::NegativeMinutes(id)
            | PlanError::UnknownCalendar(id)
            | PlanError::UnknownParent(id)
            | PlanError::MilestoneParent(id)
            | PlanError::ParentLoop(id)
            | PlanError::UnknownActivity(id)
            | PlanError::SelfLink(id)
            | PlanError::LinkLoop(id) => id,
        }
    }
}
