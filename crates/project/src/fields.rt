// What stands at a place of the sheet: a day, minutes of work left, a constraint.
// These take a place: which it is, only the record knows, and an array of the field's bytes would have to be cut out at each call.
ghost use Rattle.std.specs.Prelude.{◌≡◌, ℕ, ◌+◌, ◌≤◌, length};
ghost use Rattle.number.specs.Bytes.{byte_at};
ghost use Rattle.project.specs.Records.{date_at, optional_date_at, remaining_at, constraint_of};

use crate::{Constraint, codes};
use date::Date;

// The day at a place.
pub fn read_date(sheet: &[u8], at: usize) -> Date
    requires { at + 4 ≤ length sheet.now }
    ensures { result ≡ date_at sheet.now at }
{
    Date::new(number::read_i32(sheet, at))
}

// The number at a place, or none for the absent mark.
#[tactic(auto, unfolding(crate::specs::Records::remaining_at))]
fn read_optional(sheet: &[u8], at: usize) -> Option<i32>
    requires { at + 4 ≤ length sheet.now }
    ensures { result ≡ remaining_at sheet.now at }
{
    let marked = number::read_biased(sheet, at);
    if marked == 0 {
        return None;
    }
    Some(number::read_i32(sheet, at))
}

// The day at a place, or none for the absent mark.
#[tactic(auto, unfolding(crate::specs::Records::optional_date_at, crate::specs::Records::remaining_at))]
pub fn read_optional_date(sheet: &[u8], at: usize) -> Option<Date>
    requires { at + 4 ≤ length sheet.now }
    ensures { result ≡ optional_date_at sheet.now at }
{
    read_optional(sheet, at).map(Date::new)
}

// The minutes of work left at a place, or none for the absent mark.
pub fn read_remaining(sheet: &[u8], at: usize) -> Option<i32>
    requires { at + 4 ≤ length sheet.now }
    ensures { result ≡ remaining_at sheet.now at }
{
    read_optional(sheet, at)
}

// The constraint at a place, if any: its code, then its day.
pub fn read_constraint(sheet: &[u8], at: usize) -> Option<Constraint>
    requires { at + 5 ≤ length sheet.now }
    ensures { result ≡ constraint_of (byte_at sheet.now at) (date_at sheet.now (at + 1)) }
{
    codes::constraint_of(number::byte(sheet, at), read_date(sheet, at + 1))
}
