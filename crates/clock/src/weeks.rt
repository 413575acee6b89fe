// Work counted by the week: the minutes of days that have no E records, and the day that has one of them.
ghost use Rattle.std.specs.Prelude.{◌≡◌, [], ℕ, ◌+◌, ◌*◌, ◌/◌, ◌%◌, ◌^◌, ◌≤◌, ◌<◌, get_or};
ghost use Rattle.calendar.specs.Hours.{Ordered};
ghost use Rattle.clock.specs.Regular.{Sums, Rising, regular};

use calendar::Period;

// The sums of the weekdays' minutes from Monday on: entry `k` has those of the first `k`.
// They rise from 0 to at most the minutes of a week, so no difference of two of them falls below 0, and days' sums stay far within a u64.
#[derive(Clone, Copy)]
pub struct WeekSums {
    pub entries: [u64; 8],
    ghost none: { get_or entries 0 0 ≡ 0 },
    ghost rising: { Rising entries },
}

impl WeekSums {
    // The sums of a week.
    pub fn of(week: &[[Period; 8]; 7]) -> WeekSums
        requires { (k : ℕ) → k < 7 → Ordered 0 (get_or week.now k []) }
        ensures { Sums week.now result.entries }
    {
        let mut entries = [0u64; 8];
        // By the index, since each sum is the one before it and a weekday's minutes.
        for k in 0..7 {
            entries[k + 1] = entries[k] + calendar::row_work(week[k]) as u64;
        }
        WeekSums { entries }
    }

    // The minutes of the days before day `d`, each by its weekday, from the Monday before day 0 on: without a loop, for any number of days.
    pub fn minutes_before(&self, d: u64) -> u64
        requires { d < 2 ^ 51 }
        ensures { (result ≡ regular self.now.entries d) × (d < 4294967296 → result < 2 ^ 43) }
    {
        self.entries[7] * ((d + 1) / 7) + self.entries[((d + 1) % 7) as usize]
    }

    // The minutes of day `d` by its weekday.
    // `d < 4294967296` is a clause, here and below: a type with the bound would put its number between each contract and its definition.
    pub fn minutes_on(&self, d: u64) -> u64
        requires { d < 4294967296 }
        ensures { (regular self.now.entries d + result ≡ regular self.now.entries (d + 1)) × (result ≤ 10080) }
    {
        let k = ((d + 1) % 7) as usize;
        self.entries[k + 1] - self.entries[k]
    }

    // The minutes of the days from `d` up to but not `e`, each by its weekday: by one product, where the difference of two `minutes_before` would take two.
    pub fn regular_work(&self, d: u64, e: u64) -> u64
        requires { (d ≤ e) × (e < 4294967296) }
        ensures { regular self.now.entries d + result ≡ regular self.now.entries e }
    {
        self.entries[7] * ((e + 1) / 7 - (d + 1) / 7) + self.entries[((e + 1) % 7) as usize]
            - self.entries[((d + 1) % 7) as usize]
    }

    // The weekday, from Monday on, that has minute `y` of a week: so many weekdays are over by it.
    // It looks at all seven sums and counts without a branch, which would be hard to predict; std's `filter` would branch at each, and `partition_point` looks at some alone.
    fn weekday_at(&self, y: u64) -> u64
        requires { y < get_or self.now.entries 7 0 }
        ensures { (get_or self.now.entries result 0 ≤ y) × (y < get_or self.now.entries (result + 1) 0) × (result < 7) }
    {
        let mut over: u64 = 0;
        for sum in &self.entries[1..] {
            if *sum <= y {
                over += 1;
            }
        }
        over
    }

    // The day after the one that has minute `p` by its weekday, from the Monday before day 0 on.
    pub fn day_after(&self, p: u64) -> u64
        requires { (0 < get_or self.now.entries 7 0) × (p < 2 ^ 48) }
        ensures { (get_or self.now.entries 7 0 * (result / 7) + get_or self.now.entries (result % 7) 0 ≤ p) × (p < get_or self.now.entries 7 0 * (result / 7) + get_or self.now.entries (result % 7 + 1) 0) × (result < 2 ^ 51) }
    {
        let week = self.entries[7];
        7 * (p / week) + self.weekday_at(p % week)
    }
}
