// Signed arithmetic: each result is the integer's, and what it asks is that the integer fits.
// `min` is std's with the specs' own `min_z` for its answer: the three callers would each lead std's definition back to that one.
ghost use Rattle.std.specs.Prelude.{◌≡◌, ◌+◌, ◌^◌, ◌≤◌, ◌<◌, pos, ◌-ℤ◌};
ghost use Rattle.number.specs.Zed.{up, dn};
ghost use Rattle.number.specs.Sign.{min_z, clamp_z, percent_of, whole_days};

// The smaller of two.
pub fn min(a: i64, b: i64) -> i64
    ensures { result ≡ min_z a b }
{
    a.min(b)
}

// `z`, or the end of `lo` to `hi` that it lies beyond. It takes any two ends, as `clamp_z` does, where std's `clamp` asks that they are in order.
pub fn clamp(z: i64, lo: i64, hi: i64) -> i64
    ensures { result ≡ clamp_z z lo hi }
{
    if z < lo {
        return lo;
    }
    min(z, hi)
}

// A share of a duration, in hundredths of one percent, toward zero.
pub fn percent(duration: i64, share: i64) -> i64
    requires { up duration + dn duration ≤ 48000000 }
    ensures { (result ≡ percent_of duration share) × (up result + dn result ≤ 4800000000) }
{
    let held = share.clamp(-1000000, 1000000);
    duration * held / 10000
}

// Minutes in whole days of `day_length` minutes, toward zero; a day length of 0 counts as 1.
pub fn whole_days(minutes: i64, day_length: u64) -> i64
    requires { day_length < 2 ^ 63 }
    ensures { result ≡ whole_days minutes day_length }
{
    if day_length == 0 {
        return minutes;
    }
    minutes / (day_length as i64)
}

// How far the time `b` lies after the time `a`.
pub fn difference(a: u64, b: u64) -> i64
    requires { (a < 2 ^ 63) × (b < 2 ^ 63) }
    ensures { (result ≡ pos b -ℤ pos a) × (up result + a ≡ dn result + b) }
{
    (b as i64) - (a as i64)
}

// How far `z` lies above 0.
pub fn upward(z: i64) -> u64
    ensures { (result ≡ up z) × (result < 2 ^ 63) }
{
    z.max(0).unsigned_abs()
}

// How far `z` lies below 0.
pub fn downward(z: i64) -> u64
    ensures { (result ≡ dn z) × (result ≤ 2 ^ 63) }
{
    z.min(0).unsigned_abs()
}
