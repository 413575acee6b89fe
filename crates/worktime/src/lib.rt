// Why the clock does not answer where its walks, counts and tests end in no time, number or bool, and which days they may read.
#![tactic(auto)]

ghost use Rattle.std.specs.Prelude.{◌≡◌, ◌≤◌, ◌<◌, Ok, Err, IfOk};
ghost use Rattle.date.specs.Years.{first_day, end_day};
ghost use Rattle.worktime.specs.Number.{clock_number};
ghost use Rattle.worktime.specs.Walks.{reads};

// Row 8 of the table of refusals, too long: the number of the clock's one error, for callers that have the row as a number.
pub const TOO_LONG: u64 = 8;

// The walk leads out of the years that may be read, or a time out of the plan's span.
#[derive(Clone, Copy, Debug, PartialEq, Eq)]
pub enum ClockError {
    TooLong,
}

impl ClockError {
    // The row of the table of refusals; a method, as `order::PlanError` has one.
    pub fn number(self) -> u64
        ensures { (result ≡ clock_number self) × (result < 16) }
    {
        match self {
            ClockError::TooLong => TOO_LONG,
        }
    }
}

// Day `d`, where a walk may read it.
pub fn read_day(d: u64) -> Result<u64, ClockError>
    ensures { (result ≡ reads Err d (Ok d)) × IfOk result (λ e. (e ≡ d) × (first_day ≤ e) × (e < end_day)) }
{
    if date::in_years(d) {
        return Ok(d);
    }
    Err(ClockError::TooLong)
}
