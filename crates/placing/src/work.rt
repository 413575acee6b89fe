// Where an activity's work can begin and end, on its own calendar.
#![tactic(auto)]

use calendar::Calendar;
use project::{Activity, ActivityKind};
use worktime::ClockError;

// An activity, its own calendar, and its minutes of work left.
// The activity's number is no field: what is said of work here holds wherever a plan has it, and in the passes it names the row of the tables, which work does not have.
#[derive(Clone, Copy)]
pub struct Work<'a> {
    pub activity: Activity,
    pub calendar: Calendar<'a>,
    pub left: u64,
}

impl<'a> Work<'a> {
    ghost use Rattle.std.specs.Prelude.{◌≡◌};
    ghost use Rattle.clock.specs.On.{worked_by};
    ghost use Rattle.placing.specs.Placing.{is_moment, place_start, finish_of, start_for_finish, place_finish, start_of, finish_for_start, finish_for_start_by};

    // ---- early dates

    // Where the work may start from `t` on: a finish milestone at a finish.
    pub fn place_start(&self, t: u64) -> Result<u64, ClockError>
        ensures { result ≡ place_start (worked_by self.now.calendar) self.now.activity.kind t }
    {
        match self.activity.kind {
            ActivityKind::Task | ActivityKind::StartMilestone => {
                clock::next_start(&self.calendar, t)
            }
            ActivityKind::FinishMilestone => clock::next_finish(&self.calendar, t),
        }
    }

    // The end of the work left from `start` on.
    pub fn finish_of(&self, start: u64) -> Result<u64, ClockError>
        ensures { result ≡ finish_of (worked_by self.now.calendar) self.now.left start }
    {
        clock::advance(&self.calendar, start, self.left)
    }

    // The earliest start that finishes no earlier than `t`.
    pub fn start_for_finish(&self, t: u64) -> Result<u64, ClockError>
        ensures { result ≡ start_for_finish (worked_by self.now.calendar) self.now.left t }
    {
        if self.left == 0 {
            return Ok(t);
        }
        let f = clock::next_finish(&self.calendar, t)?;
        clock::retreat(&self.calendar, f, self.left)
    }

    // ---- late dates

    // Whether the activity is a start milestone, or a task with no work left.
    fn is_moment(&self) -> bool
        ensures { result ≡ is_moment self.now.activity.kind self.now.left }
    {
        match self.activity.kind {
            ActivityKind::Task => self.left == 0,
            ActivityKind::StartMilestone => true,
            ActivityKind::FinishMilestone => false,
        }
    }

    // The latest finish at or before `t`; a moment at the next start after it, where that is not after `t`.
    pub fn place_finish(&self, t: u64) -> Result<u64, ClockError>
        ensures { result ≡ place_finish (worked_by self.now.calendar) self.now.activity.kind self.now.left t }
    {
        let f = clock::previous_finish(&self.calendar, t)?;
        if self.is_moment() {
            let s = clock::next_start(&self.calendar, f)?;
            if s <= t {
                return Ok(s);
            }
        }
        Ok(f)
    }

    // The latest start that finishes by `finish`.
    pub fn start_of(&self, finish: u64) -> Result<u64, ClockError>
        ensures { result ≡ start_of (worked_by self.now.calendar) self.now.left finish }
    {
        clock::retreat(&self.calendar, finish, self.left)
    }

    // The latest finish that starts no later than `t`, moments with no work between counting as one.
    // It mirrors `start_for_finish` by two other walks.
    pub fn finish_for_start(&self, t: u64) -> Result<u64, ClockError>
        ensures { result ≡ finish_for_start (worked_by self.now.calendar) self.now.left t }
    {
        if self.left == 0 {
            return Ok(t);
        }
        let s = clock::previous_start(&self.calendar, t)?;
        clock::advance(&self.calendar, s, self.left)
    }

    // The same for a constraint's date, which a start must not pass.
    // It differs in one walk: a function over the walk would take that walk's contract as a parameter too, and be no plainer.
    pub fn finish_for_start_by(&self, t: u64) -> Result<u64, ClockError>
        ensures { result ≡ finish_for_start_by (worked_by self.now.calendar) self.now.left t }
    {
        if self.left == 0 {
            return Ok(t);
        }
        let s = clock::start_by(&self.calendar, t)?;
        clock::advance(&self.calendar, s, self.left)
    }
}
