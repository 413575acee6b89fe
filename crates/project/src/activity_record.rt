// An A record of the sheet, and its fields one by one, for those that need no whole activity.
#![tactic(auto, unfolding(crate::specs::Records::activity_at))]

ghost use Rattle.std.specs.Prelude.{◌+◌, ◌≤◌, length};
ghost use Rattle.project.specs.Fields.{activity_size};

use super::{Activity, ActivityKind, Constraint, Status, fields, status_of};
use date::Date;

// The A record whose byte of kind stands at `at`. The fields are read at places of the sheet, as the definitions read them: a slice or an array of the
// record alone would have to be led back to the sheet at each getter.
#[derive(Clone, Copy)]
pub struct ActivityRecord<'a> {
    pub sheet: &'a [u8],
    pub at: usize,
    ghost within: { at + activity_size ≤ length sheet.now },
}

impl<'a> ActivityRecord<'a> {
    ghost use Rattle.std.specs.Prelude.{◌≡◌, ◌^◌, ◌<◌};
    ghost use Rattle.project.specs.Status.{status_of};
    ghost use Rattle.project.specs.Values.{activity_in};

    pub fn new(sheet: &'a [u8], at: usize) -> ActivityRecord<'a>
        requires { at + activity_size ≤ length sheet.now }
        ensures { (result.sheet.now ≡ sheet.now) × (result.at ≡ at) }
    {
        ActivityRecord { sheet, at }
    }

    pub fn id(&self) -> u64
        ensures { (result ≡ (activity_in self.now).id) × (result < 2 ^ 32) }
    {
        number::read_u32(self.sheet, self.at + 1)
    }

    pub fn kind(&self) -> ActivityKind
        ensures { result ≡ (activity_in self.now).kind }
    {
        ActivityKind::from(number::byte(self.sheet, self.at + 5))
    }

    pub fn calendar(&self) -> u64
        ensures { (result ≡ (activity_in self.now).calendar) × (result < 256) }
    {
        number::byte(self.sheet, self.at + 6)
    }

    pub fn parent(&self) -> u64
        ensures { (result ≡ (activity_in self.now).parent) × (result < 2 ^ 32) }
    {
        number::read_u32(self.sheet, self.at + 7)
    }

    pub fn minutes(&self) -> i32
        ensures { result ≡ (activity_in self.now).minutes }
    {
        number::read_i32(self.sheet, self.at + 11)
    }

    pub fn actual_start(&self) -> Option<Date>
        ensures { result ≡ (activity_in self.now).actual_start }
    {
        fields::read_optional_date(self.sheet, self.at + 15)
    }

    pub fn actual_finish(&self) -> Option<Date>
        ensures { result ≡ (activity_in self.now).actual_finish }
    {
        fields::read_optional_date(self.sheet, self.at + 19)
    }

    pub fn remaining(&self) -> Option<i32>
        ensures { result ≡ (activity_in self.now).remaining }
    {
        fields::read_remaining(self.sheet, self.at + 23)
    }

    pub fn expected_finish(&self) -> Option<Date>
        ensures { result ≡ (activity_in self.now).expected_finish }
    {
        fields::read_optional_date(self.sheet, self.at + 27)
    }

    pub fn constraint(&self) -> Option<Constraint>
        ensures { result ≡ (activity_in self.now).constraint }
    {
        fields::read_constraint(self.sheet, self.at + 31)
    }

    pub fn secondary_constraint(&self) -> Option<Constraint>
        ensures { result ≡ (activity_in self.now).secondary_constraint }
    {
        fields::read_constraint(self.sheet, self.at + 36)
    }

    pub fn levelled(&self) -> Option<Date>
        ensures { result ≡ (activity_in self.now).levelled }
    {
        fields::read_optional_date(self.sheet, self.at + 41)
    }

    // The status of an activity that is no summary.
    pub fn status(&self) -> Status
        ensures { result ≡ status_of (activity_in self.now).actual_start (activity_in self.now).actual_finish }
    {
        status_of(self.actual_start(), self.actual_finish())
    }

    // The whole activity.
    pub fn read(&self) -> Activity
        ensures { result ≡ activity_in self.now }
    {
        Activity {
            id: self.id() as u32,
            kind: self.kind(),
            calendar: self.calendar() as u8,
            parent: self.parent() as u32,
            minutes: self.minutes(),
            actual_start: self.actual_start(),
            actual_finish: self.actual_finish(),
            remaining: self.remaining(),
            expected_finish: self.expected_finish(),
            constraint: self.constraint(),
            secondary_constraint: self.secondary_constraint(),
            levelled: self.levelled(),
        }
    }
}
