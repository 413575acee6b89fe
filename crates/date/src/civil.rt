// The usual civil-from-days arithmetic, Hinnant's, on years that begin in March and are counted from -5,878,000, so that nothing is negative.
ghost use Rattle.std.specs.Prelude.{◌≡◌, ℕ, ◌+◌, ◌*◌, ◌^◌, ◌≤◌, ◌<◌, ℤ};
ghost use Rattle.number.specs.Zed.{up, dn};
ghost use Rattle.date.specs.Gregorian.{IsDate};
ghost use Rattle.date.specs.March.{march, year_of_era, InYear, Shifted};

use crate::Ymd;

// The year of an era of 400 years to which its day `doe` belongs.
fn year_of_era(doe: u64) -> u64
    requires { doe < 146097 }
    ensures { result ≡ year_of_era doe }
{
    (doe - doe / 1460 + doe / 36524 - doe / 146096) / 365
}

// The year to which the day `t` belongs.
fn year_of(t: u64) -> u64
    requires { t < 2 ^ 33 }
    ensures { InYear t result × (result < 2 ^ 25) }
{
    let era = t / 146097;
    year_of_era(t % 146097) + 400 * era
}

// The days before the year `n`.
fn days_before(n: u64) -> u64
    requires { n < 2 ^ 25 }
    ensures { result ≡ march n }
{
    365 * n + n / 4 - n / 100 + n / 400
}

// The signed year.
fn signed_year(n: u64) -> i32
    requires { n < 2 ^ 26 }
    ensures { Shifted result n }
{
    number::sign::difference(5878000, n) as i32
}

// The date of the day `t`.
pub fn from_march(t: u64) -> Ymd
    requires { t < 2 ^ 33 }
    ensures { (day : ℤ) → up day + 2147614883 ≡ t + dn day → IsDate day result.year result.month result.day }
{
    let n = year_of(t);
    let doy = t - days_before(n);
    let mp = (5 * doy + 2) / 153;
    let day = (doy - (153 * mp + 2) / 5 + 1) as u32;
    if mp < 10 {
        return Ymd {
            year: signed_year(n),
            month: (mp + 3) as u32,
            day,
        };
    }
    Ymd {
        year: signed_year(n + 1),
        month: (mp - 9) as u32,
        day,
    }
}
