// The E records of a calendar as a value: where they stand in the sheet, and the search for those of a day.
#![tactic(auto)]

ghost use Rattle.calendar.specs.Records.{Listed};

use super::{DayRecords, Hours, Period, exception_day, exception_period, exception_work};

// So many E records that the search among them starts in the middle: with fewer the product in `guess` stays within its type.
const MANY_RECORDS: usize = 65536;

// How many E records beside the guess are looked at one by one.
const NEAR: usize = 8;

// `n` E records from the byte `at` of the sheet on; they lie within it, and their days do not fall.
// It holds the bytes and the place and no slice of records: `entries`, which gives one where std's search asks for it, leads a record's day back to the sheet, and each other getter would do so, too.
#[derive(Clone, Copy)]
pub struct Exceptions<'a> {
    pub sheet: &'a [u8],
    pub at: usize,
    pub n: usize,
    ghost listed: { Listed sheet.now at n },
}

impl<'a> Exceptions<'a> {
    ghost use Rattle.std.specs.Prelude.{◌≡◌, ℕ, [], ◌+◌, ◌-◌, ◌*◌, ◌^◌, ◌≤◌, ◌<◌, ltb, length, get_or};
    ghost use Rattle.calendar.specs.Exceptions.{day_in, work_in, FirstOf, InHandOf};
    ghost use Rattle.calendar.specs.Records.{exception_day, exception_period};

    // The day of record `i`.
    pub fn day(&self, i: usize) -> u64
        requires { i < self.now.n }
        ensures { (result ≡ day_in self.now i) × (result < 2 ^ 32) }
    {
        exception_day(self.sheet, self.at, i)
    }

    // The period of record `i`.
    pub fn period(&self, i: usize) -> Period
        requires { i < self.now.n }
        ensures { result ≡ exception_period self.now.sheet.now self.now.at i }
    {
        exception_period(self.sheet, self.at, i)
    }

    // How many minutes record `i` gives its day.
    pub fn work(&self, i: usize) -> u64
        requires { i < self.now.n }
        ensures { (result ≡ work_in self.now i) × (result ≤ 1440) }
    {
        exception_work(self.sheet, self.at, i)
    }

    // Where to start the search for day `d`: where it would stand if the records' days were spread evenly, as they mostly are.
    // Its value concerns speed alone: from any record the search finds the same place.
    fn guess(&self, d: u64) -> usize
        requires { 0 < self.now.n }
        ensures { result < self.now.n }
    {
        let n = self.n;
        let first = self.day(0);
        let last = self.day(n - 1);
        if d <= first {
            return 0;
        }
        if last < d {
            return n - 1;
        }
        if MANY_RECORDS <= n {
            return n / 2;
        }
        ((d - first) * n as u64 / (last - first + 1)) as usize
    }

    // The records, each as its nine bytes.
    fn entries(&self) -> &'a [[u8; 9]]
        ensures { (length result.now ≡ self.now.n) × ((i : ℕ) → i < self.now.n → exception_day (get_or result.now i []) 0 0 ≡ day_in self.now i) }
    {
        self.sheet[self.at..self.at + 9 * self.n].as_chunks::<9>().0
    }

    // The first record whose day is `d` or later, where it is one of those from `low` up to `high`, or `high`.
    fn first_between(&self, d: u64, low: usize, high: usize) -> usize
        requires { (low ≤ high) × (high ≤ self.now.n) × ((j : ℕ) → j < low → day_in self.now j < d) × ((j : ℕ) → high ≤ j → j < self.now.n → d ≤ day_in self.now j) }
        ensures { FirstOf self.now d result }
    {
        let entries = self.entries();
        low + entries[low..high].partition_point(
            |entry: &[u8; 9]| -> bool
                ensures { result ≡ ltb (exception_day entry.now 0 0) d }
            { exception_day(entry, 0, 0) < d },
        )
    }

    // The same where the day of record `start` is before `d`: one of the next, or else searched for.
    fn first_past(&self, d: u64, start: usize) -> usize
        requires { (start < self.now.n) × (day_in self.now start < d) }
        ensures { FirstOf self.now d result }
    {
        let end = self.n.min(start + NEAR);
        match (start + 1..end).find(|i| d <= self.day(*i)) {
            Some(i) => i,
            None => self.first_between(d, end, self.n),
        }
    }

    // The same where the day of record `start` is `d` or later: it or one of the last before it, or else searched for.
    fn first_up_to(&self, d: u64, start: usize) -> usize
        requires { (start < self.now.n) × (d ≤ day_in self.now start) }
        ensures { FirstOf self.now d result }
    {
        let end = start.saturating_sub(NEAR);
        match (end..start).rev().find(|i| self.day(*i) < d) {
            Some(i) => i + 1,
            None => self.first_between(d, 0, end),
        }
    }

    // The first record whose day is `d` or later. It is mostly near the guess, where a look at each costs less than halving.
    // The day and this record go together (`FirstOf`), but a walk moves both on at each step, so a struct of them would be made anew each time.
    pub fn first_from(&self, d: u64) -> usize
        ensures { FirstOf self.now d result }
    {
        if self.n == 0 {
            return 0;
        }
        let start = self.guess(d);
        if self.day(start) < d {
            return self.first_past(d, start);
        }
        self.first_up_to(d, start)
    }

    // The first record whose day is after `d`, where `from` is the first whose day is `d` or later.
    fn first_after(&self, d: u64, from: usize) -> usize
        requires { FirstOf self.now d from }
        ensures { FirstOf self.now (d + 1) result }
    {
        (from..self.n).find(|i| d < self.day(*i)).unwrap_or(self.n)
    }

    // The first record whose day is `d` or later, where `to` is the first whose day is after `d`.
    // It mirrors `first_after`: the range, the test and the answer differ, so one function would take all three and be no plainer.
    fn first_back(&self, d: u64, to: usize) -> usize
        requires { FirstOf self.now (d + 1) to }
        ensures { FirstOf self.now d result }
    {
        (0..to)
            .rev()
            .find(|i| self.day(*i) < d)
            .map_or(0, |i| i + 1)
    }

    // The records from `from` up to `to`.
    fn between(&self, from: usize, to: usize) -> DayRecords<'a>
        requires { (from ≤ to) × (to ≤ self.now.n) }
        ensures { (result.sheet.now ≡ self.now.sheet.now) × (result.at ≡ self.now.at + 9 * from) × (result.n ≡ to - from) }
    {
        DayRecords {
            sheet: self.sheet,
            at: self.at + 9 * from,
            n: to - from,
        }
    }

    // The hours of day `d` by the row of its weekday, which the caller has in hand: so `d` is any day, and no week is asked for.
    pub fn hours_on(&self, row: [Period; 8], d: u64) -> Hours<'a>
        ensures { InHandOf row self.now d result }
    {
        self.hours_from(row, d, self.first_from(d))
    }

    // The same where `from` is the first record whose day is `d` or later; so a walk forward searches no day anew.
    pub fn hours_from(&self, row: [Period; 8], d: u64, from: usize) -> Hours<'a>
        requires { FirstOf self.now d from }
        ensures { InHandOf row self.now d result × FirstOf self.now (d + 1) (from + result.records.n) × (from + result.records.n < 2 ^ 64) }
    {
        let to = self.first_after(d, from);
        Hours {
            row,
            records: self.between(from, to),
        }
    }

    // The same where `to` is the first record whose day is after `d`; so a walk back searches no day anew.
    // It mirrors `hours_from`: one function would take the search and both ends, and be no plainer.
    pub fn hours_to(&self, row: [Period; 8], d: u64, to: usize) -> Hours<'a>
        requires { FirstOf self.now (d + 1) to }
        ensures { InHandOf row self.now d result × (result.records.n ≤ to) × FirstOf self.now d (to - result.records.n) }
    {
        let from = self.first_back(d, to);
        Hours {
            row,
            records: self.between(from, to),
        }
    }
}
