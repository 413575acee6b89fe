// The program of document 01: a plan sheet on standard input, its dates or its refusal on standard output.
#![tactic(auto)]

ghost use Rattle.std.specs.Prelude.{◌≡◌, ◌^◌, ◌<◌, length};
ghost use Rattle.number.specs.Zed.{dn};

use sched::{Accepted, Refusal};
use std::io;

// A number as it is shown: the least one, which has no opposite, as the next. `plan`, `replay` and `clock_cases` each have it: one call of std's.
fn shown(z: i64) -> i64
    ensures { (dn z < 2 ^ 63 → result ≡ z) × (dn result < 2 ^ 63) }
{
    z.max(-i64::MAX)
}

// A row's numbers, on a line. This, the next and the line of a plan's totals stand in both `plan` and `replay`: std's `Print` promises nothing of what is
// written, so in a library they would be public functions with no contract, and a rule of the project wants one of each.
fn print_row(rt: &impl Print, row: &[i64]) -> io::Result<()>
    requires { 0 < length row.now }
{
    print!(rt; "{}", shown(row[0]))?;
    for z in &row[1..] {
        print!(rt; " {}", shown(*z))?;
    }
    println!(rt)
}

// A line an activity, as far as the results reach.
fn print_rows(rt: &impl Print, results: &[i64], a: u64) -> io::Result<()> {
    for row in results.chunks_exact(15).take(a as usize) {
        print_row(rt, row)?;
    }
    Ok(())
}

// A refusal shows its number and id where a program prints it: Display for it in a library would be a public function with no contract, too.
fn print_answer(
    rt: &impl Print,
    answer: Result<Accepted, Refusal>,
    results: &[i64],
) -> io::Result<()> {
    match answer {
        Err(refusal) => println!(rt; "refused {} {}", refusal.number(), refusal.id()),
        Ok(a) => {
            let day = shown(a.finish_day);
            println!(rt; "plan {day} {} {} {}", a.activities, a.ignored, a.open_ends)?;
            print_rows(rt, results, a.activities)
        }
    }
}

// Schedules a sheet and writes its answer. Memory for 64 activities and 128 links is lent.
// `plan` and `replay` do it alike, and write other things of it.
fn answer(rt: &impl Print, sheet: &[u8]) -> io::Result<()> {
    let mut results = [0i64; 960];
    let mut names = [0u32; 128];
    let mut work = [0i64; 6144];
    let answer = sched::schedule(sheet, &mut results, &mut names, &mut work);
    print_answer(rt, answer, &results)
}

fn main(rt: HostRuntime) -> io::Result<()> {
    let mut sheet = [0u8; 16385];
    let n = input::read_full(&mut rt.reader(), &mut sheet)?;
    if n > 16384 {
        return println!(rt; "too big");
    }
    answer(&rt, &sheet[..n])
}
