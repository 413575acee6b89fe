// The times of the project, an activity that is to be placed by them, and where it is placed.
ghost use Rattle.std.specs.Prelude.{◌^◌, ◌<◌};

use date::Date;
use placing::Work;
use project::ProgressMode;

// What the pass reads of the project.
#[derive(Clone, Copy)]
pub struct Times {
    pub origin: u64,
    pub floor: u64,
    pub data_date: Option<Date>,
    pub progress_mode: ProgressMode,
    pub ghost near: { origin < 2 ^ 43 },
}

// An activity that is to be placed: its work in hand, whether it is a summary, and the times of the project.
#[derive(Clone, Copy)]
pub struct Unplaced<'a> {
    pub work: Work<'a>,
    pub is_summary: bool,
    pub times: Times,
    pub ghost storable: { work.left < 2 ^ 63 },
}

// Where an activity is placed: its early start and early finish, and its minutes of work left, as the memory holds them.
#[derive(Clone, Copy)]
pub struct Placement {
    pub start: u64,
    pub finish: u64,
    pub left: u64,
    pub ghost storable: { (start < 2 ^ 63) × (finish < 2 ^ 63) × (left < 2 ^ 63) },
}
