// Lent memory: cells of a slice of i64, each read and written as a natural number or as itself.
// The two ways are functions of their own, here and in `memory`: their contracts cite different definitions, and a trait for the two would be longer than their one-line bodies.
#![tactic(auto)]

ghost use Rattle.std.specs.Prelude.{◌≡◌, ℕ, ◌+◌, ◌^◌, ◌≤◌, ◌<◌, length};
ghost use Rattle.cells.specs.Cell.{cell, store, cell_z, store_z, filled};

// The number in the cell `at`: 0 where there is none or where it is negative.
pub fn get(work: &[i64], at: usize) -> u64
    ensures { (result ≡ cell work.now at) × (result < 2 ^ 63) }
{
    number::sign::upward(get_signed(work, at))
}

// The integer in the cell `at`: 0 where there is none.
pub fn get_signed(work: &[i64], at: usize) -> i64
    ensures { result ≡ cell_z work.now at }
{
    work.get(at).copied().unwrap_or(0)
}

// Puts `v` into the cell `at`.
// `v < 2 ^ 63` is a clause, here and wherever a number goes into a cell: a type of such numbers would stand between each value and its definition.
pub fn put(work: &mut [i64], at: usize, v: u64)
    requires { (at < length work.old) × (v < 2 ^ 63) }
    ensures { work.new ≡ store work.old at v }
{
    work[at] = v as i64;
}

// Puts `z` into the cell `at`.
pub fn put_signed(work: &mut [i64], at: usize, z: i64)
    requires { at < length work.old }
    ensures { work.new ≡ store_z work.old at z }
{
    work[at] = z;
}

// Puts `v` into the `n` cells from `base` on.
pub fn fill(work: &mut [i64], base: usize, n: usize, v: u64)
    requires { (base + n ≤ length work.old) × (v < 2 ^ 63) }
    ensures { work.new ≡ filled work.old base v n }
{
    work[base..base + n].fill(v as i64);
}
