// E records that a walk passes, with the days between them, while less is passed than it has to work.
ghost use Rattle.std.specs.Prelude.{◌≡◌, List, ℕ, ◌+◌, ◌-◌, ◌*◌, ◌^◌, ◌≤◌, ◌<◌, get_or};
ghost use Rattle.calendar.specs.declared.Period.{Period};
ghost use Rattle.calendar.specs.Records.{Valid};
ghost use Rattle.calendar.specs.Exceptions.{day_in, FirstOf};
ghost use Rattle.worktime.specs.Worked.{count};
ghost use Rattle.clock.specs.On.{worked_on};
ghost use Rattle.clock.specs.Regular.{Sums, regular};
ghost use Rattle.clock.specs.Stands.{record_work, Ahead, Behind};

use super::weeks::WeekSums;
use calendar::Exceptions;

// Where a walk stands between two E records: the first that comes after, the minutes passed, those of all days up to there by their weekdays, and the minutes to pass up to the record that is next on its way.
// `start` is of the record that is next, where there is one; an `Option` of it would be told from `at` a second time.
#[derive(Clone, Copy)]
pub struct Standing {
    pub at: usize,
    pub passed: u64,
    pub over: u64,
    pub start: u64,
}

// The walks read no week: what they say of its days holds for every week that the E records are valid with and whose sums they are given.

// Forward from the beginning of day `d`; `from` is the first record whose day is `d` or later. It stops before the record by whose end `work` minutes are passed.
// The bounds of `d` and of `work` are clauses, here and below: a type with the bound would put its number between each contract and its definition.
pub fn ahead(sums: &WeekSums, exceptions: &Exceptions, d: u64, from: usize, work: u64) -> Standing
    requires { FirstOf exceptions.now d from × (d < 4294967296) × (0 < work) × (work < 2 ^ 47) }
    ensures { ((week : List (List Period)) → Valid week exceptions.now.sheet.now exceptions.now.at exceptions.now.n → Sums week sums.now.entries → Ahead week exceptions.now.sheet.now exceptions.now.at exceptions.now.n sums.now.entries result.at (count (worked_on week exceptions.now.sheet.now exceptions.now.at exceptions.now.n) (d * 1440) + result.passed) result.over) × (result.passed < work) × (result.at < exceptions.now.n → (result.start ≡ result.passed + (regular sums.now.entries (day_in exceptions.now result.at) - result.over)) × (work ≤ result.start + record_work exceptions.now.sheet.now exceptions.now.at result.at)) × (result.over < 2 ^ 43) }
{
    let mut passed: u64 = 0;
    let mut over = sums.minutes_before(d);
    let mut next = d;
    for j in from..exceptions.n {
        let day = exceptions.day(j);
        let before = sums.minutes_before(day);
        let regular = sums.minutes_on(day);
        // With a further record of a day, what the day has by its weekday is over already; it is put back without a branch, which would be hard to predict.
        let out = if next <= day { 0 } else { regular };
        let start = passed + before + out - over;
        let done = start + exceptions.work(j);
        if work <= done {
            return Standing {
                at: j,
                passed,
                over,
                start,
            };
        }
        passed = done;
        over = before + regular;
        next = day + 1;
    }
    Standing {
        at: exceptions.n,
        passed,
        over,
        start: passed,
    }
}

// Back from the beginning of day `d`; `from` is the first record whose day is `d` or later. It stops after the record at whose beginning `work` minutes are passed.
// It mirrors `ahead`: the range, the test for a further record of a day and both ends differ, so one function over the direction would take them all and be no plainer.
pub fn back(sums: &WeekSums, exceptions: &Exceptions, d: u64, from: usize, work: u64) -> Standing
    requires { FirstOf exceptions.now d from × (d < 4294967296) × (0 < work) × (work < 2 ^ 47) }
    ensures { ((week : List (List Period)) → Valid week exceptions.now.sheet.now exceptions.now.at exceptions.now.n → Sums week sums.now.entries → (result.passed ≤ count (worked_on week exceptions.now.sheet.now exceptions.now.at exceptions.now.n) (d * 1440)) × Behind week exceptions.now.sheet.now exceptions.now.at exceptions.now.n sums.now.entries result.at (count (worked_on week exceptions.now.sheet.now exceptions.now.at exceptions.now.n) (d * 1440) - result.passed) result.over) × (result.passed < work) × (0 < result.at → (result.start ≡ result.passed + (result.over - regular sums.now.entries (day_in exceptions.now (result.at - 1) + 1))) × (work ≤ result.start + record_work exceptions.now.sheet.now exceptions.now.at (result.at - 1))) × (result.at ≤ exceptions.now.n) × (result.over < 2 ^ 43) }
{
    let mut passed: u64 = 0;
    let mut over = sums.minutes_before(d);
    let mut next = d;
    for j in (0..from).rev() {
        let day = exceptions.day(j);
        let before = sums.minutes_before(day);
        let regular = sums.minutes_on(day);
        let after = before + regular;
        let out = if day < next { 0 } else { regular };
        let start = passed + over + out - after;
        let done = start + exceptions.work(j);
        if work <= done {
            return Standing {
                at: j + 1,
                passed,
                over,
                start,
            };
        }
        passed = done;
        over = before;
        next = day;
    }
    Standing {
        at: 0,
        passed,
        over,
        start: passed,
    }
}
