// A sheet that was read.
#![tactic(auto)]

ghost use Rattle.sheet.specs.Known.{SheetRead};
ghost use Rattle.sheet.specs.Props.{props};

use super::Contents;
use date::Date;
use project::{ActivityRecord, LagCalendar, LinkRecord, Project, ProjectRecord};

// The bytes of a plan sheet that was read, and what it holds.
#[derive(Clone, Copy)]
pub struct Sheet<'a> {
    pub bytes: &'a [u8],
    pub contents: Contents,
    ghost read: { SheetRead bytes.now contents } by { Prim.hlevel props },
}

impl<'a> Sheet<'a> {
    ghost use Rattle.std.specs.Prelude.{◌≡◌, ◌<◌};
    ghost use Rattle.project.specs.Records.{project_at};
    ghost use Rattle.sheet.specs.Places.{activity_at, link_at};

    // The sheet of bytes that were read.
    pub fn new(bytes: &'a [u8], contents: Contents) -> Sheet<'a>
        requires { SheetRead bytes.now contents }
        ensures { (result.bytes.now ≡ bytes.now) × (result.contents ≡ contents) }
    {
        Sheet { bytes, contents }
    }

    // The record of the project.
    pub fn project_record(&self) -> ProjectRecord<'a>
        ensures { (result.sheet.now ≡ self.now.bytes.now) × (result.at ≡ 0) }
    {
        ProjectRecord::new(self.bytes, 0)
    }

    // The project.
    pub fn project(&self) -> Project
        ensures { result ≡ project_at self.now.bytes.now 0 }
    {
        self.project_record().read()
    }

    // The day that the project starts. This getter and the three after it read one field where no more of the project is asked.
    pub fn start(&self) -> Date
        ensures { result ≡ (project_at self.now.bytes.now 0).start }
    {
        self.project_record().start()
    }

    // The day up to which work is recorded, if any.
    pub fn data_date(&self) -> Option<Date>
        ensures { result ≡ (project_at self.now.bytes.now 0).data_date }
    {
        self.project_record().data_date()
    }

    // The day that the project must finish by, if any.
    pub fn must_finish_by(&self) -> Option<Date>
        ensures { result ≡ (project_at self.now.bytes.now 0).must_finish_by }
    {
        self.project_record().must_finish_by()
    }

    // The calendar that the project's working lags count on.
    pub fn lag_calendar(&self) -> LagCalendar
        ensures { result ≡ (project_at self.now.bytes.now 0).lag_calendar }
    {
        self.project_record().lag_calendar()
    }

    // The record of activity `i`.
    pub fn activity(&self, i: usize) -> ActivityRecord<'a>
        requires { i < self.now.contents.activities }
        ensures { (result.sheet.now ≡ self.now.bytes.now) × (result.at ≡ activity_at self.now.contents i) }
    {
        ActivityRecord::new(self.bytes, self.contents.at + 45 * i)
    }

    // The record of link `k`.
    pub fn link(&self, k: usize) -> LinkRecord<'a>
        requires { k < self.now.contents.links }
        ensures { (result.sheet.now ≡ self.now.bytes.now) × (result.at ≡ link_at self.now.contents k) }
    {
        let links = self.contents.at + 45 * self.contents.activities;
        LinkRecord::new(self.bytes, links + 16 * k)
    }
}
