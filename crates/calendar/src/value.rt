// A work calendar as a value: its week and its E records.
#![tactic(auto)]

ghost use Rattle.calendar.specs.Records.{Valid};
ghost use Rattle.calendar.specs.Props.{props};

use super::exceptions::Exceptions;
use super::{Hours, Period};

// A week of seven rows of eight periods, and the E records of days that have hours of their own; every day's hours are in order.
#[derive(Clone, Copy)]
pub struct Calendar<'a> {
    pub week: &'a [[Period; 8]; 7],
    pub exceptions: Exceptions<'a>,
    ghost valid: { Valid week.now exceptions.sheet.now exceptions.at exceptions.n } by { Prim.hlevel props },
}

impl<'a> Calendar<'a> {
    ghost use Rattle.std.specs.Prelude.{◌≡◌, [], ◌+◌, ◌-◌, ◌^◌, ◌≤◌, ◌<◌, get_or};
    ghost use Rattle.date.specs.Days.{weekday};
    ghost use Rattle.calendar.specs.Hours.{Ordered};
    ghost use Rattle.calendar.specs.Records.{periods_of};
    ghost use Rattle.calendar.specs.Exceptions.{FirstOf};
    ghost use Rattle.calendar.specs.Value.{hours_of};

    // The calendar of a week and of the `n` E records from the byte `at` of the sheet on.
    pub fn new(week: &'a [[Period; 8]; 7], sheet: &'a [u8], at: usize, n: usize) -> Calendar<'a>
        requires { Valid week.now sheet.now at n }
        ensures { (result.week.now ≡ week.now) × (result.exceptions.sheet.now ≡ sheet.now) × (result.exceptions.at ≡ at) × (result.exceptions.n ≡ n) }
    {
        Calendar {
            week,
            exceptions: Exceptions { sheet, at, n },
        }
    }

    // The row of day `d`'s weekday.
    pub fn row(&self, d: u64) -> [Period; 8]
        requires { d < 2 ^ 63 }
        ensures { result ≡ get_or self.now.week.now (weekday d) [] }
    {
        self.week[((d + 1) % 7) as usize]
    }

    // The hours of day `d`.
    // `d < 2 ^ 63` is a clause, here and below: a type of bounded days would put its number between each contract and its definition.
    pub fn hours_on(&self, d: u64) -> Hours<'a>
        requires { d < 2 ^ 63 }
        ensures { (periods_of result ≡ hours_of self.now d) × Ordered 0 (periods_of result) }
    {
        self.exceptions.hours_on(self.row(d), d)
    }

    // The hours of day `d`, where `from` is the first E record whose day is `d` or later; so a walk forward searches no day anew.
    pub fn hours_from(&self, d: u64, from: usize) -> Hours<'a>
        requires { (d < 2 ^ 63) × FirstOf self.now.exceptions d from }
        ensures { (periods_of result ≡ hours_of self.now d) × Ordered 0 (periods_of result) × FirstOf self.now.exceptions (d + 1) (from + result.records.n) × (from + result.records.n < 2 ^ 64) }
    {
        self.exceptions.hours_from(self.row(d), d, from)
    }

    // The hours of day `d`, where `to` is the first E record whose day is after `d`; so a walk back searches no day anew.
    pub fn hours_to(&self, d: u64, to: usize) -> Hours<'a>
        requires { (d < 2 ^ 63) × FirstOf self.now.exceptions (d + 1) to }
        ensures { (periods_of result ≡ hours_of self.now d) × Ordered 0 (periods_of result) × (result.records.n ≤ to) × FirstOf self.now.exceptions d (to - result.records.n) }
    {
        self.exceptions.hours_to(self.row(d), d, to)
    }
}
