// A row of the table of the plan's calendars.
use calendar::Period;

// A calendar of the plan: its week, its E records (`n` from the byte `at` of the sheet on), and its day length.
// No `Exceptions` in it: a struct that holds a reference beside an array of arrays cannot be made, since the borrow checker has no rule for it.
#[derive(Clone, Copy)]
pub struct PlanCalendar {
    pub week: [[Period; 8]; 7],
    pub at: usize,
    pub n: usize,
    pub day_length: u64,
}
