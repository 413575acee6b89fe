// Reads the sheets of the file `sheets` and writes a line for each: what it holds, or the number of its refusal.
#![tactic(auto)]

ghost use Rattle.std.specs.Prelude.{◌+◌, ◌≤◌, length};

use std::{fs, io};

// Copies `part` `times` times in a row to `at`, while there is room, and answers where that ends. An empty part, where `chunks_exact_mut` panics, ends where it begins.
// A place stands beside the sheet here and below: what is built is answered from the sheet's start, which a slice of the rest would no longer have.
// A `for` over the room's chunks tests a part's bounds once: parts of a few bytes stand thousands of times in a row.
fn repeat(part: &[u8], times: usize, sheet: &mut [u8], at: usize) -> usize
    requires { at ≤ length sheet.old }
    ensures { result ≤ length sheet.new }
{
    let n = part.len();
    if n == 0 {
        return at;
    }
    let fit = times.min((sheet.len() - at) / n);
    let end = at + n * fit;
    for place in sheet[at..end].chunks_exact_mut(n) {
        place.copy_from_slice(part);
    }
    end
}

// Puts the sheet together whose `parts` parts the file begins with, and answers it and the rest of the file; a part that is cut ends the file.
fn build<'s, 'f>(file: &'f [u8], parts: usize, sheet: &'s mut [u8]) -> (&'s [u8], &'f [u8])
    ensures { length result.1.now ≤ length file.now }
{
    let mut rest = file;
    let mut size: usize = 0;
    for _ in 0..parts {
        if rest.len() < 4 {
            return (&sheet[..size], &[]);
        }
        let times = number::read_u16(rest, 0) as usize;
        let n = number::read_u16(rest, 2) as usize;
        let end = 4 + n;
        if rest.len() < end {
            return (&sheet[..size], &[]);
        }
        size = repeat(&rest[4..end], times, sheet, size);
        rest = &rest[end..];
    }
    (&sheet[..size], rest)
}

// The line of a sheet.
fn answer(rt: &impl Print, index: u64, sheet: &[u8]) -> io::Result<()> {
    match sheet::read(sheet) {
        Ok(c) => {
            println!(rt;
                "{index} read {} {} {} {}",
                c.calendars, c.at, c.activities, c.links
            )
        }
        Err(e) => println!(rt; "{index} refused {}", e.number()),
    }
}

// The lines of all sheets of the file, each put together in `sheet`.
fn answer_all(rt: &impl Print, file: &[u8], sheet: &mut [u8]) -> io::Result<()> {
    let mut rest = file;
    let mut index: u64 = 0;
    // Where a sheet's parts end is known only once they are put together, so no iterator has the sheets.
    while 2 <= rest.len() {
        let parts = number::read_u16(rest, 0) as usize;
        let (built, after) = build(&rest[2..], parts, sheet);
        answer(rt, index, built)?;
        rest = after;
        index += 1;
    }
    Ok(())
}

// The three programs of cases begin alike: each opens its file and reads it whole, into memory of its own size, which a function for all would have to be handed.
fn main(rt: HostRuntime) -> io::Result<()> {
    let mut source = match fs::open(&rt, "sheets") {
        Ok(source) => source,
        Err(e) => return eprintln!(rt; "sheets: {e}"),
    };
    let mut file = [0u8; 131072];
    let n = input::read_full(&mut source, &mut file)?;
    let mut sheet = [0u8; 524288];
    answer_all(&rt, &file[..n], &mut sheet)
}
