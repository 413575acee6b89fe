// A C record of the sheet.
#![tactic(auto)]

ghost use Rattle.std.specs.Prelude.{◌+◌, ◌≤◌, length};
ghost use Rattle.project.specs.Fields.{calendar_size};

// The C record whose byte of kind stands at `at`, in the form of `ActivityRecord`. Its W and E records follow it, and are no part of it.
#[derive(Clone, Copy)]
pub struct CalendarRecord<'a> {
    pub sheet: &'a [u8],
    pub at: usize,
    ghost within: { at + calendar_size ≤ length sheet.now },
}

impl<'a> CalendarRecord<'a> {
    ghost use Rattle.std.specs.Prelude.{◌≡◌, ◌<◌};
    ghost use Rattle.project.specs.Records.{day_length_at};

    pub fn new(sheet: &'a [u8], at: usize) -> CalendarRecord<'a>
        requires { at + calendar_size ≤ length sheet.now }
        ensures { (result.sheet.now ≡ sheet.now) × (result.at ≡ at) }
    {
        CalendarRecord { sheet, at }
    }

    // The day length in minutes.
    pub fn day_length(&self) -> u64
        ensures { (result ≡ day_length_at self.now.sheet.now self.now.at) × (result < 65536) }
    {
        number::read_u16(self.sheet, self.at + 1) as u64
    }
}
