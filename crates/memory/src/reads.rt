// What reads the tables: the tables themselves, or the rows of a slice that is lent to be read.
#![tactic(auto)]

ghost use Rattle.std.specs.Prelude.{◌≡◌, ltb, ◌^◌, ◌≤◌, ◌<◌};
ghost use Rattle.memory.specs.State.{Room, state_of};

use crate::chain::{self, Chain};
use crate::{Tables, fields};

// The reading of tables: what only reads them takes any that does, and its contract speaks of the tables that are read.
pub trait Reads {
    ghost use Rattle.memory.specs.declared.Tables.{Tables};
    ghost use Rattle.memory.specs.Seen.{state};
    ghost use Rattle.memory.specs.Fields.{is_summary, from_field, to_field};
    ghost use Rattle.memory.specs.Chains.{ChainsIn, ChainsOut};
    ghost use Rattle.cells.specs.Chain.{after};
    ghost use Rattle.memory.specs.Rows.{cell_of};

    ghost tables: { Self → Tables };

    fn activities(&self) -> usize
        ensures { (result ≡ (tables self.now).activities) × (result < 2 ^ 63) };

    fn kept(&self) -> usize
        ensures { (result ≡ (tables self.now).kept) × (result < 2 ^ 63) };

    fn act_signed(&self, i: usize, f: usize) -> i64
        requires { (i < (tables self.now).activities) × (f < 64) }
        ensures { result ≡ (state (tables self.now)).act_z f i };

    fn link_signed(&self, k: usize, f: usize) -> i64
        requires { (k < (tables self.now).links) × (f < 16) }
        ensures { result ≡ (state (tables self.now)).link_z f k };

    // Field `f` of activity `i`: 0 where it is negative.
    final fn act(&self, i: usize, f: usize) -> u64
        requires { (i < (tables self.now).activities) × (f < 64) }
        ensures { (result ≡ (state (tables self.now)).act f i) × (result < 2 ^ 63) }
    {
        number::sign::upward(self.act_signed(i, f))
    }

    // Field `f` of link `k`: 0 where it is negative.
    final fn link(&self, k: usize, f: usize) -> u64
        requires { (k < (tables self.now).links) × (f < 16) }
        ensures { (result ≡ (state (tables self.now)).link f k) × (result < 2 ^ 63) }
    {
        number::sign::upward(self.link_signed(k, f))
    }

    // The row that field `f` of activity `i` names, where it names one.
    final fn row(&self, i: usize, f: usize) -> Option<usize>
        requires { (i < (tables self.now).activities) × (f < 64) }
        ensures { cell_of result ≡ (state (tables self.now)).act f i }
    {
        (self.act(i, f) as usize).checked_sub(1)
    }

    // Whether activity `i` is a summary.
    final fn is_summary(&self, i: usize) -> bool
        requires { i < (tables self.now).activities }
        ensures { result ≡ ltb 0 ((state (tables self.now)).act is_summary i) }
    {
        self.act(i, fields::IS_SUMMARY) > 0
    }

    // The kept links into activity `i`, in rising order, by their chain.
    final fn links_into<'a>(&'a self, i: usize) -> Chain<'a, Self>
        requires { (i < (tables self.now).activities) × ChainsIn (tables self.now).activities (tables self.now).kept (state (tables self.now)) }
        ensures { result ≡ after ((state (tables self.now)).link to_field) (tables self.now).kept i 0 }
    {
        chain::into(self, i)
    }

    // The kept links out of activity `i`, in rising order, by their chain.
    final fn links_out<'a>(&'a self, i: usize) -> Chain<'a, Self>
        requires { (i < (tables self.now).activities) × ChainsOut (tables self.now).activities (tables self.now).kept (state (tables self.now)) }
        ensures { result ≡ after ((state (tables self.now)).link from_field) (tables self.now).kept i 0 }
    {
        chain::out_of(self, i)
    }
}

// The tables keep methods of these names, whose contracts name no trait: what writes reads by them, and the proofs of the passes are over them.
impl<'a> Reads for Tables<'a> {
    ghost tables = { λ t. t };

    fn activities(&self) -> usize {
        self.activities
    }

    fn kept(&self) -> usize {
        self.kept
    }

    fn act_signed(&self, i: usize, f: usize) -> i64 {
        Tables::act_signed(self, i, f)
    }

    fn link_signed(&self, k: usize, f: usize) -> i64 {
        Tables::link_signed(self, k, f)
    }
}

// The tables in cells that are lent to be read.
#[derive(Clone, Copy)]
pub struct Rows<'a> {
    pub cells: &'a [i64],
    pub activities: usize,
    pub links: usize,
    pub kept: usize,
    pub ghost room: { Room activities links cells.now },
    pub ghost within: { kept ≤ links },
}

impl<'a> Rows<'a> {
    ghost use Rattle.memory.specs.Seen.{state};
    ghost use Rattle.memory.specs.Shared.{tables_of};

    // The tables in `cells`, whose first `kept` links are kept.
    #[tactic(auto, unfolding(crate::specs::Seen::state))]
    pub fn of(cells: &'a [i64], activities: usize, links: usize, kept: usize) -> Rows<'a>
        requires { Room activities links cells.now × (kept ≤ links) }
        ensures { (state (tables_of result) ≡ state_of activities links cells.now) × (result.activities ≡ activities) × (result.links ≡ links) × (result.kept ≡ kept) × (result.cells.now ≡ cells.now) }
    {
        Rows {
            cells,
            activities,
            links,
            kept,
        }
    }
}

impl<'a> Reads for Rows<'a> {
    ghost use Rattle.memory.specs.Shared.{tables_of};

    ghost tables = { tables_of };

    fn activities(&self) -> usize {
        self.activities
    }

    fn kept(&self) -> usize {
        self.kept
    }

    fn act_signed(&self, i: usize, f: usize) -> i64 {
        self.cells[crate::place(self.activities, i, f)]
    }

    fn link_signed(&self, k: usize, f: usize) -> i64 {
        self.cells[64 * self.activities + f * self.links + k]
    }
}
