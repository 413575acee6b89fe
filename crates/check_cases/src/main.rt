// Checks the plans of the file `sheets` and writes a line for each: what rows 5 to 15 of 01's table answer. The file and the lines expected come from
// tools/check_cases.py, where each answer is stated by hand.
#![tactic(auto)]

ghost use Rattle.std.specs.Prelude.{◌+◌, ◌≤◌, max, length};
ghost use Rattle.memory.specs.State.{Room};
ghost use Rattle.order.specs.Plan.{plan_in};
ghost use Rattle.calendars.specs.Calendars.{Lengths};

use calendars::PlanSheet;
use checks::PlanCounts;
use memory::Tables;
use order::PlanError;
use sheet::Sheet;
use std::{fs, io};

// Where the first 0 stands, by std's `position`, or the end. `check_cases` and `replay` each have this: std's call is all that it does, and no library below
// them is about names.
fn first_zero(names: &[u32]) -> usize
    ensures { result ≤ length names.now }
{
    names
        .iter()
        .position(|name| *name == 0)
        .unwrap_or(names.len())
}

// The names, one after another.
fn print_each(rt: &impl Print, names: &[u32]) -> io::Result<()> {
    for name in names {
        print!(rt; " {name}")?;
    }
    Ok(())
}

// The first `n` names, and whether those after them are zeros; nothing where there are fewer.
fn print_names(rt: &impl Print, names: &[u32], n: usize) -> io::Result<()> {
    let Some((named, rest)) = names.split_at_checked(n) else {
        return Ok(());
    };
    print_each(rt, named)?;
    if rest.iter().all(|name| *name == 0) {
        return Ok(());
    }
    print!(rt; " names not zero")
}

// A plan that is fine: its kept and ignored links and its open ends, and where the ignored ones stand.
fn print_fine(rt: &impl Print, names: &[u32], kept: usize, counts: PlanCounts) -> io::Result<()> {
    print!(rt; " fine {kept} {} {}", counts.ignored, counts.open_ends)?;
    print_names(rt, names, counts.ignored)
}

// A refusal: its number and its id, and the loop that is named.
fn print_refused(rt: &impl Print, names: &[u32], work: &[i64], error: PlanError) -> io::Result<()> {
    print!(rt; " refused {} {}", error.number(), error.id())?;
    print_names(rt, names, first_zero(names))?;
    if work.iter().all(|cell| *cell == 0) {
        return Ok(());
    }
    print!(rt; " work not zero")
}

// Checks a plan with lent names and memory, whatever they hold.
fn check_lent(
    rt: &impl Print,
    plan: &PlanSheet,
    names: &mut [u32],
    work: &mut [i64],
) -> io::Result<()>
    requires { Lengths (plan_in plan.now.sheet) plan.now.calendars.now × (max (plan.now.sheet.contents.activities + 1) plan.now.sheet.contents.links ≤ length names.old) × Room plan.now.sheet.contents.activities plan.now.sheet.contents.links work.old }
{
    let mut tables = Tables::of(
        work,
        plan.sheet.contents.activities,
        plan.sheet.contents.links,
    );
    match checks::check_plan(plan, names, &mut tables) {
        Ok(counts) => print_fine(rt, names, tables.kept, counts),
        Err(error) => print_refused(rt, names, work, error),
    }
}

// Lends what `check_lent` needs: names and memory that are not zeros, for 64 activities and 128 links.
fn check_read(rt: &impl Print, sheet: &Sheet) -> io::Result<()> {
    if sheet.contents.activities > 64 || sheet.contents.links > 128 {
        return print!(rt; " no room");
    }
    let calendars = calendars::locate(sheet);
    let plan = PlanSheet::new(*sheet, &calendars);
    let mut names = [7u32; 128];
    let mut work = [7i64; 6144];
    check_lent(rt, &plan, &mut names, &mut work)
}

// The line of a sheet.
fn answer(rt: &impl Print, index: u64, sheet: &[u8]) -> io::Result<()> {
    print!(rt; "{index}")?;
    match sheet::read(sheet) {
        Ok(contents) => {
            check_read(rt, &Sheet::new(sheet, contents))?;
        }
        Err(e) => {
            let number = e.number();
            print!(rt; " refused {number} 0")?;
        }
    }
    println!(rt)
}

// The lines of all sheets of the file.
fn answer_all(rt: &impl Print, file: &[u8]) -> io::Result<()> {
    let mut rest = file;
    let mut index: u64 = 0;
    // A sheet stands after its length, so each tells where the next begins: an iterator would be the same loop and its type.
    while 2 <= rest.len() {
        let end = 2 + number::read_u16(rest, 0) as usize;
        if rest.len() < end {
            break;
        }
        answer(rt, index, &rest[2..end])?;
        rest = &rest[end..];
        index += 1;
    }
    Ok(())
}

// The three programs of cases begin alike: each opens its file and reads it whole, into memory of its own size, which a function for all would have to be handed.
fn main(rt: HostRuntime) -> io::Result<()> {
    let mut source = match fs::open(&rt, "sheets") {
        Ok(source) => source,
        Err(e) => return eprintln!(rt; "sheets: {e}"),
    };
    let mut file = [0u8; 65536];
    let n = input::read_full(&mut source, &mut file)?;
    answer_all(&rt, &file[..n])
}
