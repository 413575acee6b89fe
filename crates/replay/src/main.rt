// Schedules the recorded sheets of the file `sheets` and writes each answer as `plan` does, with the names that the call leaves. The file and what is
// expected, the Rust's answers, come from tools/replay_cases.py.
#![tactic(auto)]

ghost use Rattle.std.specs.Prelude.{◌≡◌, ◌^◌, ◌≤◌, ◌<◌, length};
ghost use Rattle.number.specs.Zed.{dn};

use sched::{Accepted, Refusal};
use std::io::Read;
use std::{fs, io};

// A number as it is shown: the least one, which has no opposite, as the next. `plan`, `replay` and `clock_cases` each have it: one call of std's.
fn shown(z: i64) -> i64
    ensures { (dn z < 2 ^ 63 → result ≡ z) × (dn result < 2 ^ 63) }
{
    z.max(-i64::MAX)
}

// A row's numbers, on a line. This, the next and the line of a plan's totals stand in both `plan` and `replay`: std's `Print` promises nothing of what is
// written, so in a library they would be public functions with no contract, and a rule of the project wants one of each.
fn print_row(rt: &impl Print, row: &[i64]) -> io::Result<()>
    requires { 0 < length row.now }
{
    print!(rt; "{}", shown(row[0]))?;
    for z in &row[1..] {
        print!(rt; " {}", shown(*z))?;
    }
    println!(rt)
}

// A line an activity, as far as the results reach.
fn print_rows(rt: &impl Print, results: &[i64], a: u64) -> io::Result<()> {
    for row in results.chunks_exact(15).take(a as usize) {
        print_row(rt, row)?;
    }
    Ok(())
}

// Where the first 0 stands, by std's `position`, or the end. `check_cases` and `replay` each have this: std's call is all that it does, and no library below
// them is about names.
fn first_zero(names: &[u32]) -> usize
    ensures { result ≤ length names.now }
{
    names
        .iter()
        .position(|name| *name == 0)
        .unwrap_or(names.len())
}

// The names on a line, where there are any.
fn print_names(rt: &impl Print, names: &[u32]) -> io::Result<()> {
    if names.is_empty() {
        return Ok(());
    }
    print!(rt; "names")?;
    for name in names {
        print!(rt; " {name}")?;
    }
    println!(rt)
}

// A refusal: its number and its id, and the loop that is named.
fn print_refused(rt: &impl Print, refusal: Refusal, names: &[u32]) -> io::Result<()> {
    println!(rt; "refused {} {}", refusal.number(), refusal.id())?;
    print_names(rt, &names[..first_zero(names)])
}

// A plan: its totals, its rows, and where the ignored links stand.
fn print_plan(rt: &impl Print, plan: Accepted, results: &[i64], names: &[u32]) -> io::Result<()> {
    let day = shown(plan.finish_day);
    println!(rt;
        "plan {day} {} {} {}",
        plan.activities, plan.ignored, plan.open_ends
    )?;
    print_rows(rt, results, plan.activities)?;
    let Some(ignored) = names.get(..plan.ignored as usize) else {
        return Ok(());
    };
    print_names(rt, ignored)
}

fn print_answer(
    rt: &impl Print,
    answer: Result<Accepted, Refusal>,
    results: &[i64],
    names: &[u32],
) -> io::Result<()> {
    match answer {
        Err(refusal) => print_refused(rt, refusal, names),
        Ok(plan) => print_plan(rt, plan, results, names),
    }
}

// Schedules a sheet and writes its answer. Memory for 64 activities and 128 links is lent.
// `plan` and `replay` do it alike, and write other things of it.
fn answer(rt: &impl Print, sheet: &[u8]) -> io::Result<()> {
    let mut results = [0i64; 960];
    let mut names = [0u32; 128];
    let mut work = [0i64; 6144];
    let answer = sched::schedule(sheet, &mut results, &mut names, &mut work);
    print_answer(rt, answer, &results, &names)
}

// Reads a sheet as long as the slice and writes its answer; answers whether it was there.
fn replay_sheet(rt: &impl Print, file: &mut impl Read, sheet: &mut [u8]) -> io::Result<bool> {
    let n = input::read_full(file, sheet)?;
    if n < sheet.len() {
        return Ok(false);
    }
    answer(rt, sheet)?;
    Ok(true)
}

// Reads the next sheet, its length first, and writes its answer; answers whether there was one, of 16,384 bytes at most.
fn replay_next(rt: &impl Print, file: &mut impl Read) -> io::Result<bool> {
    let mut head = [0u8; 4];
    if input::read_full(file, &mut head)? < 4 {
        return Ok(false);
    }
    let size = number::read_u32(&head, 0) as usize;
    let mut sheet = [0u8; 16384];
    let Some(sheet) = sheet.get_mut(..size) else {
        return Ok(false);
    };
    replay_sheet(rt, file, sheet)
}

// The answers of all sheets, 65,536 at most: more than the file has, and a bound, so that the loop ends, whatever is read.
fn replay_all(rt: &impl Print, file: &mut impl Read) -> io::Result<()> {
    for _ in 0..65536 {
        if !replay_next(rt, file)? {
            break;
        }
    }
    Ok(())
}

// It begins as the three programs of cases do, but reads its file, which is large, a sheet at a time: the opening alone, two calls of std's, is the same.
fn main(rt: HostRuntime) -> io::Result<()> {
    let mut file = match fs::open(&rt, "sheets") {
        Ok(file) => file,
        Err(e) => return eprintln!(rt; "sheets: {e}"),
    };
    replay_all(&rt, &mut file)
}
