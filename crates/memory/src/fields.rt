// The fields of the two tables: the list of `memory`'s specs, for code.
// They are numbers, no enum and no newtype: the specs speak of runs of fields, as a frame's from one to another, and `place`, `rest` and the chains of `rollup` compute with them; a type that keeps the bound would put its number between each contract and its definition.

// ---- activities
pub const LOW_CHILD: usize = 0;

pub const HIGH_CHILD: usize = 1;

pub const PARENT: usize = 2;

pub const IS_SUMMARY: usize = 3;

pub const FIRST_IN: usize = 4;

pub const FIRST_OUT: usize = 5;

pub const WAITING: usize = 6;

pub const ORDER_AT: usize = 7;

pub const SEEN: usize = 8;

pub const PATH_AT: usize = 9;

pub const LATE_START: usize = 10;

pub const LATE_FINISH: usize = 11;

pub const EARLY_START: usize = 12;

pub const EARLY_FINISH: usize = 13;

pub const WORK_LEFT: usize = 14;

pub const FREE_FLOAT: usize = 15;

pub const LONGEST_PATH: usize = 16;

pub const RECORDED_AS: usize = 17;

pub const RECORDED_START: usize = 18;

pub const RECORDED_FINISH: usize = 19;

pub const SHOWN_START: usize = 20;

pub const SHOWN_FINISH: usize = 21;

pub const SHOWN_LATE_START: usize = 22;

pub const SHOWN_LATE_FINISH: usize = 23;

pub const TOTAL_FLOAT: usize = 24;

pub const SHOWN_FREE: usize = 25;

pub const IS_CRITICAL: usize = 26;

pub const IS_LONGEST: usize = 27;

pub const GREATEST_FINISH: usize = 28;

pub const GREATEST_LATE: usize = 29;

pub const DEPTH_OF: usize = 30;

pub const FIRST_DEEP: usize = 31;

pub const NEXT_DEEP: usize = 32;

pub const FIRST_CHILD: usize = 33;

pub const NEXT_CHILD: usize = 34;

pub const ROOT: usize = 35;

// ---- kept links
pub const FROM: usize = 0;

pub const TO: usize = 1;

pub const KIND: usize = 2;

pub const LAG: usize = 3;

pub const LAG_CALENDAR: usize = 4;

pub const NEXT_INTO: usize = 5;

pub const NEXT_OUT: usize = 6;
