// Civil dates of the proleptic Gregorian calendar, as a count of days from 1 January 1970.
#![tactic(auto)]

ghost use Rattle.std.specs.Prelude.{◌≡◌, ℕ, ◌+◌, ◌*◌, ◌/◌, ◌^◌, ◌≤◌, ◌<◌};
ghost use Rattle.number.specs.Zed.{up, dn};
ghost use Rattle.date.specs.Years.{in_years};
ghost use Rattle.date.specs.Gregorian.{IsDate};
ghost use Rattle.date.specs.Days.{biased, unbiased, from_days, weekday, midnight, signed_day, signed_minute};

mod civil;

// A day, counted from 1 January 1970 (negative before it).
#[derive(Clone, Copy, PartialEq, Eq, Debug)]
pub struct Date(pub i32);

// A date as the calendar has it: the month from 1 on, and the day of the month.
#[derive(Clone, Copy, PartialEq, Eq, Debug)]
pub struct Ymd {
    pub year: i32,
    pub month: u32,
    pub day: u32,
}

// The first day that a walk may read, and the last: those of the years -9999 to 9999, counted from the first day that an i32 can name.
pub const FIRST_DAY: u64 = 2143112061;

pub const LAST_DAY: u64 = 2150416544;

// Whether `day` lies in the years -9999 to 9999.
#[tactic(auto, unfolding(crate::specs::Years::in_years))]
pub fn in_years(day: u64) -> bool
    ensures { result ≡ in_years day }
{
    FIRST_DAY <= day && day <= LAST_DAY
}

// A signed day, counted from the first that an i32 can name.
pub fn biased(day: i32) -> u64
    ensures { (result ≡ biased day) × (result < 2 ^ 32) }
{
    (day as i64 + 2147483648) as u64
}

// The signed day of a day counted so, back from `biased`.
pub fn unbiased(day: u64) -> i64
    requires { day < 2 ^ 63 }
    ensures { (result ≡ unbiased day) × (up result + 2 ^ 31 ≡ dn result + day) }
{
    number::sign::difference(2147483648, day)
}

// The signed day of a time.
pub fn signed_day(t: u64) -> i64
    requires { t < 2 ^ 63 }
    ensures { (result ≡ signed_day t) × (up result + 2 ^ 31 ≡ dn result + t / 1440) }
{
    unbiased(t / 1440)
}

// The signed minute of a time.
pub fn signed_minute(t: u64) -> i64
    requires { t < 2 ^ 63 }
    ensures { (result ≡ signed_minute t) × (up result + 2 ^ 31 * 1440 ≡ dn result + t) }
{
    number::sign::difference(3092376453120, t)
}

impl Date {
    // The day `days` from 1 January 1970, whatever its year: a reader judges its days by itself.
    // A name and no `From`: of two functions from an i32 that would not say which refuses no year.
    pub fn new(days: i32) -> Date
        ensures { result.0 ≡ days }
    {
        Date(days)
    }

    // The day `days` from 1 January 1970, if its year is in range.
    #[tactic(auto, unfolding(crate::specs::Days::from_days))]
    pub fn from_days(days: i32) -> Option<Date>
        ensures { result ≡ from_days days }
    {
        in_years(biased(days)).then_some(Date(days))
    }

    // Days from 1 January 1970.
    pub fn days(self) -> i32
        ensures { result ≡ self.0 }
    {
        self.0
    }

    // The day of the week, from 0, Monday, to 6.
    pub fn weekday(self) -> u64
        ensures { (result ≡ weekday (biased self.0)) × (result < 7) }
    {
        (biased(self.0) + 1) % 7
    }

    // The minute with which the day begins, on the clock of natural numbers.
    pub fn midnight(self) -> u64
        ensures { (result ≡ midnight (biased self.0)) × (result < 2 ^ 43) }
    {
        biased(self.0) * 1440
    }

    // Year, month and day: the only ones that the calendar has for it.
    pub fn ymd(self) -> Ymd
        ensures { IsDate self.0 result.year result.month result.day }
    {
        civil::from_march(biased(self.0) + 131235)
    }
}
