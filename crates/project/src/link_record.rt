// An L record of the sheet, and its fields one by one, for those that need no whole link.
#![tactic(auto, unfolding(crate::specs::Records::relationship_at))]

ghost use Rattle.std.specs.Prelude.{◌+◌, ◌≤◌, length};
ghost use Rattle.project.specs.Fields.{link_size};

use super::{LagKind, Relationship, RelationshipType, codes};

// The L record whose byte of kind stands at `at`, in the form of `ActivityRecord`. A type of its own, so that a link is not read as an activity: one type
// for both would tell its two sets of getters apart by a number alone.
#[derive(Clone, Copy)]
pub struct LinkRecord<'a> {
    pub sheet: &'a [u8],
    pub at: usize,
    ghost within: { at + link_size ≤ length sheet.now },
}

impl<'a> LinkRecord<'a> {
    ghost use Rattle.std.specs.Prelude.{◌≡◌, ◌^◌, ◌<◌};
    ghost use Rattle.project.specs.Records.{relationship_type_of};
    ghost use Rattle.project.specs.Values.{relationship_in};

    pub fn new(sheet: &'a [u8], at: usize) -> LinkRecord<'a>
        requires { at + link_size ≤ length sheet.now }
        ensures { (result.sheet.now ≡ sheet.now) × (result.at ≡ at) }
    {
        LinkRecord { sheet, at }
    }

    pub fn predecessor(&self) -> u64
        ensures { (result ≡ (relationship_in self.now).predecessor) × (result < 2 ^ 32) }
    {
        number::read_u32(self.sheet, self.at + 1)
    }

    pub fn successor(&self) -> u64
        ensures { (result ≡ (relationship_in self.now).successor) × (result < 2 ^ 32) }
    {
        number::read_u32(self.sheet, self.at + 5)
    }

    // The code of its kind.
    pub fn kind_code(&self) -> u64
        ensures { (relationship_type_of result ≡ (relationship_in self.now).kind) × (result < 256) }
    {
        number::byte(self.sheet, self.at + 9)
    }

    pub fn kind(&self) -> RelationshipType
        ensures { result ≡ (relationship_in self.now).kind }
    {
        RelationshipType::from(self.kind_code())
    }

    pub fn lag(&self) -> LagKind
        ensures { result ≡ (relationship_in self.now).lag }
    {
        let basis = number::byte(self.sheet, self.at + 10);
        let unit = number::byte(self.sheet, self.at + 11);
        codes::lag_of(basis, unit, number::read_i32(self.sheet, self.at + 12))
    }

    // The whole link.
    pub fn read(&self) -> Relationship
        ensures { result ≡ relationship_in self.now }
    {
        Relationship {
            predecessor: self.predecessor() as u32,
            successor: self.successor() as u32,
            kind: self.kind(),
            lag: self.lag(),
        }
    }
}
