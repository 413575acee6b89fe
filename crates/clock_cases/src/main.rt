// Runs the clock cases of the file `cases` and writes a line for each. The file and the lines expected come from tools/clock_cases.py, which scans minute
// by minute as document 01 words the clock and shares nothing with the code here.
#![tactic(auto)]

ghost use Rattle.std.specs.Prelude.{◌≡◌, Ok, IfOk, ◌+◌, ◌^◌, min, ◌≤◌, ◌<◌, length};
ghost use Rattle.sheet.specs.declared.runs.RecordKind.TheVariants.{Week, Exception};
ghost use Rattle.sheet.specs.Reading.{run_of};

use calendar::{Calendar, Period};
use sheet::runs::RecordKind;
use std::{fmt, fs, io};
use worktime::ClockError;

// A time. It shows as 01 counts minutes; no time of a case or an answer is past that count.
#[derive(Clone, Copy)]
struct Time(u64);

impl fmt::Display for Time {
    fn fmt<W: fmt::Write>(&self, f: &mut fmt::Formatter<W>) -> fmt::Result {
        if self.0 < 0x8000_0000_0000_0000 {
            let minute = date::signed_minute(self.0);
            write!(f, "{minute}")?;
        }
        Ok(())
    }
}

// A function of the clock, with what it takes beside a calendar and a time.
// The file names it by a code, and three switches have all twelve. What the functions take and answer differs, so a table of them would want a function around
// each, and places that are the same codes.
#[derive(Clone, Copy)]
enum Walk {
    NextStart,
    PreviousFinish,
    NextFinish,
    PreviousStart,
    StartBy,
    WorkingAt,
    WorkedBefore,
    DayWork,
    Advance(u64),
    Retreat(u64),
    Shift(i32),
    Between(Time),
}

// What a walk answers.
#[derive(Clone, Copy)]
enum Answer {
    Time(Time),
    Work(i64),
    Working(bool),
}

impl Answer {
    // The answer that is a time.
    fn at(t: u64) -> Answer {
        Answer::Time(Time(t))
    }
}

// A walk and the time that it is taken at.
#[derive(Clone, Copy)]
struct Case {
    walk: Walk,
    time: Time,
}

// The time at a place: its day and the minute of the day.
fn time_at(case: &[u8], at: usize) -> Time
    requires { at + 6 ≤ length case.now }
    ensures { result.0 < 2 ^ 63 }
{
    Time(number::read_biased(case, at) * 1440 + number::read_u16(case, at + 4) as u64)
}

// The walk with a code, which takes what stands at `at`. The codes are 1 to 12; 0 counts as 5, and more as 12.
// `From` would have the code alone; a walk takes numbers of the case, too.
fn walk_of(code: u64, case: &[u8], at: usize) -> Walk
    requires { at + 6 ≤ length case.now }
{
    match code {
        1 => Walk::NextStart,
        2 => Walk::PreviousFinish,
        3 => Walk::NextFinish,
        4 => Walk::PreviousStart,
        0 | 5 => Walk::StartBy,
        6 => Walk::WorkingAt,
        7 => Walk::WorkedBefore,
        8 => Walk::DayWork,
        9 => Walk::Advance(number::read_u32(case, at)),
        10 => Walk::Retreat(number::read_u32(case, at)),
        11 => Walk::Shift(number::read_i32(case, at)),
        _ => Walk::Between(time_at(case, at)),
    }
}

impl Case {
    // A case of the file: the walk's code, the time and what the walk takes.
    fn read(case: &[u8]) -> Case
        requires { 13 ≤ length case.now }
    {
        Case {
            walk: walk_of(number::byte(case, 0), case, 7),
            time: time_at(case, 1),
        }
    }

    fn answer(&self, calendar: &Calendar) -> Result<Answer, ClockError> {
        let t = self.time.0;
        match self.walk {
            Walk::NextStart => clock::next_start(calendar, t).map(Answer::at),
            Walk::PreviousFinish => clock::previous_finish(calendar, t).map(Answer::at),
            Walk::NextFinish => clock::next_finish(calendar, t).map(Answer::at),
            Walk::PreviousStart => clock::previous_start(calendar, t).map(Answer::at),
            Walk::StartBy => clock::start_by(calendar, t).map(Answer::at),
            Walk::WorkingAt => clock::working_at(calendar, t).map(Answer::Working),
            Walk::WorkedBefore => clock::worked_before(calendar, t).map(Answer::Work),
            Walk::DayWork => clock::day_work(calendar, t / 1440).map(Answer::Work),
            Walk::Advance(work) => clock::advance(calendar, t, work).map(Answer::at),
            Walk::Retreat(work) => clock::retreat(calendar, t, work).map(Answer::at),
            Walk::Shift(lag) => clock::shift(calendar, t, lag as i64).map(Answer::at),
            Walk::Between(end) => clock::between(calendar, t, end.0).map(Answer::Work),
        }
    }
}

impl fmt::Display for Case {
    fn fmt<W: fmt::Write>(&self, f: &mut fmt::Formatter<W>) -> fmt::Result {
        let t = self.time;
        match self.walk {
            Walk::NextStart => write!(f, "next_start {t}"),
            Walk::PreviousFinish => write!(f, "previous_finish {t}"),
            Walk::NextFinish => write!(f, "next_finish {t}"),
            Walk::PreviousStart => write!(f, "previous_start {t}"),
            Walk::StartBy => write!(f, "start_by {t}"),
            Walk::WorkingAt => write!(f, "working_at {t}"),
            Walk::WorkedBefore => write!(f, "worked_before {t}"),
            Walk::DayWork => write!(f, "day_work {t}"),
            Walk::Advance(work) => write!(f, "advance {t} {work}"),
            Walk::Retreat(work) => write!(f, "retreat {t} {work}"),
            Walk::Shift(lag) => write!(f, "shift {t} {lag}"),
            Walk::Between(end) => write!(f, "between {t} {end}"),
        }
    }
}

impl fmt::Display for Answer {
    fn fmt<W: fmt::Write>(&self, f: &mut fmt::Formatter<W>) -> fmt::Result {
        match self {
            Answer::Time(t) => write!(f, "{t}"),
            // The least number, which has no opposite, shows as the next. `plan`, `replay` and this each have it: one call of std's.
            Answer::Work(z) => {
                let work = (*z).max(-i64::MAX);
                write!(f, "{work}")
            }
            Answer::Working(b) => f.write_str(yes_or_no(*b)),
        }
    }
}

fn yes_or_no(b: bool) -> &'static str {
    if b { "yes" } else { "no" }
}

// The line of a case.
fn print_case(rt: &impl Print, calendar: &Calendar, case: Case) -> io::Result<()> {
    print!(rt; "{case}: ")?;
    match case.answer(calendar) {
        Ok(answer) => println!(rt; "{answer}"),
        Err(e) => println!(rt; "refused {}", e.number()),
    }
}

// Each function here and below that answers a place promises that it is past the one it is given, unless the file ends there, and within the file: so `run_file`
// ends. They spell it out, since a name for it would be all that a specs/ of this program had.
// The file is no sheet, since its calendars have cases between them: they take its bytes and places, where a `Sheet` would be taken.

// The cases that follow a calendar, from their mark on, and where they end.
fn run_cases(rt: &impl Print, calendar: &Calendar, file: &[u8], from: usize) -> io::Result<usize>
    requires { from ≤ length file.now }
    ensures { IfOk result (λ end. (min (from + 1) (length file.now) ≤ end) × (end ≤ length file.now)) }
{
    if file.len() - from < 3 {
        return Ok(file.len());
    }
    let first = from + 3;
    let count = number::read_u16(file, from + 1) as usize;
    if (file.len() - first) / 13 < count {
        return Ok(file.len());
    }
    let end = first + 13 * count;
    for case in file[first..end].chunks_exact(13) {
        print_case(rt, calendar, Case::read(case))?;
    }
    Ok(end)
}

fn print_calendar(rt: &impl Print, week: [[Period; 8]; 7], w: usize, e: usize) -> io::Result<()> {
    let hours = yes_or_no(calendar::has_hours(week));
    println!(rt; "calendar of {w} W and {e} E, weekly hours: {hours}")
}

// The cases of a calendar of `w` W records from `at` on and `e` E records from `from` on; after a mark of 1 they are cases round the clock. Where the heading cannot be written they are still tried.
fn run_week(
    rt: &impl Print,
    file: &[u8],
    at: usize,
    w: usize,
    from: usize,
    e: usize,
) -> io::Result<usize>
    requires { (at ≤ from) × (at ≤ length file.now) × (from ≤ length file.now) × (run_of file.now Week at ≡ Ok w) × (run_of file.now Exception from ≡ Ok e) }
    ensures { IfOk result (λ end. (min (at + 1) (length file.now) ≤ end) × (end ≤ length file.now)) }
{
    let end = from + 9 * e;
    if sheet::runs::kind_at(file, end) == 1 {
        let head = println!(rt; "round the clock");
        let week = calendar::round_the_clock();
        let calendar = Calendar::new(&week, file, end, 0);
        let ran = run_cases(rt, &calendar, file, end);
        head?;
        return ran;
    }
    let week = calendar::read_week(file, at, w);
    let head = print_calendar(rt, week, w, e);
    let calendar = Calendar::new(&week, file, from, e);
    let ran = run_cases(rt, &calendar, file, end);
    head?;
    ran
}

// The cases of a calendar whose `w` W records stand from `at` on.
fn run_weeks(rt: &impl Print, file: &[u8], at: usize, w: usize) -> io::Result<usize>
    requires { (at ≤ length file.now) × (run_of file.now Week at ≡ Ok w) }
    ensures { IfOk result (λ end. (min (at + 1) (length file.now) ≤ end) × (end ≤ length file.now)) }
{
    let from = at + 6 * w;
    match sheet::runs::read_run(file, RecordKind::Exception, from) {
        Err(e) => {
            print!(rt; "refused {}", e.number())?;
            Ok(file.len())
        }
        Ok(e) => run_week(rt, file, at, w, from, e),
    }
}

// The cases of the calendar whose records begin at `at`, and where they end.
// It mirrors `run_weeks`: the kind of record, its size and what follows differ, so one function would take all three and be no plainer.
fn run_calendar(rt: &impl Print, file: &[u8], at: usize) -> io::Result<usize>
    requires { at ≤ length file.now }
    ensures { IfOk result (λ end. (min (at + 1) (length file.now) ≤ end) × (end ≤ length file.now)) }
{
    match sheet::runs::read_run(file, RecordKind::Week, at) {
        Err(e) => {
            print!(rt; "refused {}", e.number())?;
            Ok(file.len())
        }
        Ok(w) => run_weeks(rt, file, at, w),
    }
}

fn run_file(rt: &impl Print, file: &[u8]) -> io::Result<()> {
    let mut at: usize = 0;
    // Each calendar tells where it ends, so no range gives the places of the next: an iterator of our own would say no more than this loop.
    while at < file.len() {
        at = run_calendar(rt, file, at)?;
    }
    Ok(())
}

// The three programs of cases begin alike: each opens its file and reads it whole, into memory of its own size, which a function for all would have to be handed.
fn main(rt: HostRuntime) -> io::Result<()> {
    let mut source = match fs::open(&rt, "cases") {
        Ok(source) => source,
        Err(e) => return eprintln!(rt; "cases: {e}"),
    };
    let mut file = [0u8; 16384];
    let n = input::read_full(&mut source, &mut file)?;
    run_file(&rt, &file[..n])
}
