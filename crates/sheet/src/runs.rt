// Runs of records of one kind.
ghost use Rattle.std.specs.Prelude.{◌≡◌, Ok, IfOk, ◌+◌, ◌*◌, ◌≤◌, ◌<◌, length};
ghost use Rattle.number.specs.Bytes.{byte_at};
ghost use Rattle.sheet.specs.Kinds.{kind_of, byte_of, size_of, judge_of};
ghost use Rattle.sheet.specs.Reading.{run_of};
ghost use Rattle.sheet.specs.Places.{count_of};

use judges::SheetError;

// The kinds of record that stand in runs.
#[derive(Clone, Copy)]
pub enum RecordKind {
    Week,
    Exception,
    Activity,
    Link,
    // Records with another byte, which no sheet that was read has: they are of a link's length and judged as links.
    Other(u64),
}

// The kind of a byte, for callers that count a run by its byte.
impl From<u64> for RecordKind {
    ghost from_gives = { λ byte result. (result ≡ kind_of byte) × (byte_of result ≡ byte) };

    #[tactic(auto, unfolding(crate::specs::Kinds::kind_of))]
    fn from(byte: u64) -> RecordKind {
        match byte {
            0x57 => RecordKind::Week,
            0x45 => RecordKind::Exception,
            0x41 => RecordKind::Activity,
            0x4C => RecordKind::Link,
            _ => RecordKind::Other(byte),
        }
    }
}

impl RecordKind {
    // The byte that a record of the kind begins with.
    fn byte(self) -> u64
        ensures { result ≡ byte_of self }
    {
        match self {
            RecordKind::Week => b'W' as u64,
            RecordKind::Exception => b'E' as u64,
            RecordKind::Activity => b'A' as u64,
            RecordKind::Link => b'L' as u64,
            RecordKind::Other(byte) => byte,
        }
    }

    // How long a record of the kind is.
    fn size(self) -> usize
        ensures { (result ≡ size_of self) × (0 < result) × (result ≤ 45) }
    {
        match self {
            RecordKind::Week => 6,
            RecordKind::Exception => 9,
            RecordKind::Activity => 45,
            RecordKind::Link | RecordKind::Other(_) => 16,
        }
    }

    // Record `i` of a run that begins at a place. A `match`, as the definition is one over the kind: a trait with an impl for each and their laws would be longer.
    fn judge(self, sheet: &[u8], at: usize, i: usize) -> Result<(), SheetError>
        requires { at + size_of self * i + size_of self ≤ length sheet.now }
        ensures { result ≡ judge_of self sheet.now at i }
    {
        match self {
            RecordKind::Week => judges::judge_week(sheet, at, i),
            RecordKind::Exception => judges::judge_exception(sheet, at, i),
            RecordKind::Activity => judges::judge_activity(sheet, at, i),
            RecordKind::Link | RecordKind::Other(_) => judges::judge_link(sheet, at, i),
        }
    }
}

// The byte of kind at a place, and past the sheet's end 0, which is no kind of record and is what the definitions' `byte_at` reads there.
pub fn kind_at(sheet: &[u8], at: usize) -> u8
    ensures { result ≡ byte_at sheet.now at }
{
    sheet.get(at).copied().unwrap_or(0)
}

// How many records of a kind stand in a row from a place on, or why one of them is refused.
#[tactic(auto, using(crate::specs::RunSteps::here_start, crate::specs::RunSteps::here_end, crate::specs::RunSteps::here_cut, crate::specs::RunSteps::here_refused, crate::specs::RunSteps::here_more))]
pub fn read_run(sheet: &[u8], kind: RecordKind, at: usize) -> Result<usize, SheetError>
    requires { at ≤ length sheet.now }
    ensures run { result ≡ run_of sheet.now kind at }
    ensures within { IfOk result (λ n. at + size_of kind * n ≤ length sheet.now) }
{
    let size = kind.size();
    let mut p = at;
    let mut i: usize = 0;
    // An iterator over whole records ends before one that is cut short; a test after it would have to tell that from the run's end, which is no plainer.
    while kind_at(sheet, p) as u64 == kind.byte() {
        if sheet.len() - p < size {
            return Err(SheetError::Malformed);
        }
        kind.judge(sheet, at, i)?;
        p += size;
        i += 1;
    }
    Ok(i)
}

// How many records a run has that was read before.
pub fn count_run(sheet: &[u8], kind: RecordKind, at: usize) -> usize
    requires { (at ≤ length sheet.now) × (run_of sheet.now kind at ≡ Ok (count_of sheet.now kind at)) }
    ensures { result ≡ count_of sheet.now kind at }
{
    let byte = kind.byte();
    sheet[at..]
        .chunks_exact(kind.size())
        .take_while(|record| record[0] as u64 == byte)
        .count()
}
