// An activity that is not completed, as its late dates are found.
use placing::Work;

// The work in hand of an activity that is not completed, and the project's start.
#[derive(Clone, Copy)]
pub struct Unfinished<'a> {
    pub work: Work<'a>,
    pub origin: u64,
}
