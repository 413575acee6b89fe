// The hours of a day as a value: its weekday's row, or the E records that it has of its own; and what is asked of either.
#![tactic(auto)]

ghost use Rattle.std.specs.Prelude.{◌≡◌, List, ℕ, ◌+◌, ◌*◌, ◌≤◌, ◌<◌, length, get_or};
ghost use Rattle.calendar.specs.Hours.{none, rank, select, next_in, works, Ordered};

use super::{Period, exception_period, period_length, period_rank};

// How many periods a row holds.
const PERIODS: usize = 8;

// Periods in their order: a row, or the E records of a day. What is asked of either goes over their places, compiled for each.
// It gives a count and a place, since an iterator over periods would be a type of its own for each impl.
pub trait Periods {
    ghost use Rattle.calendar.specs.declared.Period.{Period};

    ghost list: { Self → List Period };

    fn count(&self) -> usize
        ensures { result ≡ length (list self.now) };

    fn period(&self, i: usize) -> Period
        requires { i < length (list self.now) }
        ensures { result ≡ get_or (list self.now) i none };
}

impl Periods for [Period; 8] {
    ghost list = { λ row. row };

    fn count(&self) -> usize {
        PERIODS
    }

    fn period(&self, i: usize) -> Period {
        self[i]
    }
}

// `n` E records of one day, from the byte `at` of the sheet on; as in `Exceptions`, a place and no slice, which would have to be led back to the sheet.
#[derive(Clone, Copy)]
pub struct DayRecords<'a> {
    pub sheet: &'a [u8],
    pub at: usize,
    pub n: usize,
    ghost within: { at + 9 * n ≤ length sheet.now },
}

impl<'a> Periods for DayRecords<'a> {
    ghost use Rattle.calendar.specs.Records.{record_periods};

    ghost list = { λ e. record_periods e.sheet.now e.at e.n };

    #[tactic(auto, using(crate::specs::DayLaws::records_length))]
    fn count(&self) -> usize {
        self.n
    }

    fn period(&self, i: usize) -> Period {
        exception_period(self.sheet, self.at, i)
    }
}

// Whether some period holds a minute.
pub fn works_in<P: Periods>(periods: &P) -> bool
    ensures { result ≡ works (P.list periods.now) }
{
    (0..periods.count()).any(|i| {
        let p = periods.period(i);
        p.from < p.to
    })
}

// How many minutes of the periods stand before minute `m` of the day: without a branch, so that the machine takes all eight of a row at once.
pub fn rank_in<P: Periods>(periods: &P, m: u16) -> u16
    requires { Ordered 0 (P.list periods.now) }
    ensures { (result ≡ rank (P.list periods.now) m) × (result ≤ 1440) }
{
    (0..periods.count())
        .map(|i| period_rank(periods.period(i), m))
        .sum()
}

// The minute of the day by which `k` minutes of the periods are worked.
pub fn select_in<P: Periods>(periods: &P, k: u64) -> u64
    requires { Ordered 0 (P.list periods.now) × (0 < k) × (k ≤ rank (P.list periods.now) 1440) }
    ensures { (result ≡ select (P.list periods.now) k) × (0 < result) × (result ≤ 1440) }
{
    // A loop, since each period passed takes its minutes from what is left: a closure for std's `find_map` would change what it captures.
    let mut left = k;
    for i in 0..periods.count() {
        let p = periods.period(i);
        let length = period_length(p) as u64;
        if left <= length {
            return p.from as u64 + left;
        }
        left -= length;
    }
    0
}

// The first minute of the periods at or after minute `m` of the day.
pub fn next_in<P: Periods>(periods: &P, m: u64) -> Option<u64>
    ensures { result ≡ next_in (P.list periods.now) m }
{
    (0..periods.count())
        .map(|i| periods.period(i))
        .find(|p| m < p.to as u64)
        .map(|p| m.max(p.from as u64))
}

// The hours of a day: its weekday's row, or its E records if it has any.
// An enum of the two was tried, and it was slower: the row shares its bytes with the records' place and is put together again from parts,
// and the scheduling call took 2 to 7 percent more instructions.
// Each method chooses by itself: one function for the choice would take a trait with a generic method and an impl for each of the four, which is longer than the four,
// and hours that were `Periods` themselves would choose at each period.
// That its periods are in order is no ghost field: a field cannot say `periods_of` of its own struct, so the choice would be written a second time, for the two methods that ask for the order.
#[derive(Clone, Copy)]
pub struct Hours<'a> {
    pub row: [Period; 8],
    pub records: DayRecords<'a>,
}

impl<'a> Hours<'a> {
    ghost use Rattle.calendar.specs.Records.{periods_of};

    // Whether some minute of the day is worked.
    #[tactic(auto, unfolding(crate::specs::Records::periods_of))]
    pub fn works(&self) -> bool
        ensures { result ≡ works (periods_of self.now) }
    {
        if self.records.n == 0 {
            return works_in(&self.row);
        }
        works_in(&self.records)
    }

    // How many minutes of the day are worked before its minute `m`.
    #[tactic(auto, using(crate::specs::HoursLaws::rank_top), unfolding(crate::specs::Records::periods_of))]
    pub fn rank(&self, m: u64) -> u64
        requires { Ordered 0 (periods_of self.now) }
        ensures { (result ≡ rank (periods_of self.now) m) × (result ≤ 1440) }
    {
        if m == 0 {
            return 0;
        }
        let before = m.min(1440) as u16;
        if self.records.n == 0 {
            return rank_in(&self.row, before) as u64;
        }
        rank_in(&self.records, before) as u64
    }

    // The minute of the day by which `k` of its minutes are worked.
    #[tactic(auto, unfolding(crate::specs::Records::periods_of))]
    pub fn select(&self, k: u64) -> u64
        requires { Ordered 0 (periods_of self.now) × (0 < k) × (k ≤ rank (periods_of self.now) 1440) }
        ensures { (result ≡ select (periods_of self.now) k) × (0 < result) × (result ≤ 1440) }
    {
        if self.records.n == 0 {
            return select_in(&self.row, k);
        }
        select_in(&self.records, k)
    }

    // The first worked minute of the day at or after its minute `m`.
    #[tactic(auto, unfolding(crate::specs::Records::periods_of))]
    pub fn next_minute(&self, m: u64) -> Option<u64>
        ensures { result ≡ next_in (periods_of self.now) m }
    {
        if self.records.n == 0 {
            return next_in(&self.row, m);
        }
        next_in(&self.records, m)
    }
}
