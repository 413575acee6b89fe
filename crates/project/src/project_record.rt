// The P record of the sheet, and its fields one by one, for those that need no whole project.
#![tactic(auto, unfolding(crate::specs::Records::project_at))]

ghost use Rattle.std.specs.Prelude.{◌+◌, ◌≤◌, length};
ghost use Rattle.project.specs.Fields.{header_size};

use super::{CriticalBy, FloatKind, LagCalendar, ProgressMode, Project, codes, fields};
use date::Date;

// The P record whose byte of kind stands at `at`, in the form of `ActivityRecord`.
#[derive(Clone, Copy)]
pub struct ProjectRecord<'a> {
    pub sheet: &'a [u8],
    pub at: usize,
    ghost within: { at + header_size ≤ length sheet.now },
}

impl<'a> ProjectRecord<'a> {
    ghost use Rattle.std.specs.Prelude.{◌≡◌};
    ghost use Rattle.project.specs.Values.{project_in};

    pub fn new(sheet: &'a [u8], at: usize) -> ProjectRecord<'a>
        requires { at + header_size ≤ length sheet.now }
        ensures { (result.sheet.now ≡ sheet.now) × (result.at ≡ at) }
    {
        ProjectRecord { sheet, at }
    }

    pub fn start(&self) -> Date
        ensures { result ≡ (project_in self.now).start }
    {
        fields::read_date(self.sheet, self.at + 1)
    }

    pub fn data_date(&self) -> Option<Date>
        ensures { result ≡ (project_in self.now).data_date }
    {
        fields::read_optional_date(self.sheet, self.at + 5)
    }

    pub fn must_finish_by(&self) -> Option<Date>
        ensures { result ≡ (project_in self.now).must_finish_by }
    {
        fields::read_optional_date(self.sheet, self.at + 9)
    }

    pub fn lag_calendar(&self) -> LagCalendar
        ensures { result ≡ (project_in self.now).lag_calendar }
    {
        LagCalendar::from(number::byte(self.sheet, self.at + 13))
    }

    pub fn float_kind(&self) -> FloatKind
        ensures { result ≡ (project_in self.now).float_kind }
    {
        FloatKind::from(number::byte(self.sheet, self.at + 14))
    }

    pub fn progress_mode(&self) -> ProgressMode
        ensures { result ≡ (project_in self.now).progress_mode }
    {
        ProgressMode::from(number::byte(self.sheet, self.at + 15))
    }

    pub fn critical_by(&self) -> CriticalBy
        ensures { result ≡ (project_in self.now).critical_by }
    {
        let code = number::byte(self.sheet, self.at + 16);
        codes::critical_by_of(code, number::read_i32(self.sheet, self.at + 17))
    }

    // The whole project.
    pub fn read(&self) -> Project
        ensures { result ≡ project_in self.now }
    {
        Project {
            start: self.start(),
            data_date: self.data_date(),
            must_finish_by: self.must_finish_by(),
            lag_calendar: self.lag_calendar(),
            float_kind: self.float_kind(),
            progress_mode: self.progress_mode(),
            critical_by: self.critical_by(),
        }
    }
}
