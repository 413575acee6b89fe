// The children of a summary, one after another.
#![tactic(auto)]

ghost use Rattle.std.specs.Prelude.{◌≡◌, suc, ◌+◌, ◌<◌};
ghost use Rattle.std.specs.Iterator.{YieldsFirst, item_count};
ghost use Rattle.cells.specs.Chain.{after};
ghost use Rattle.memory.specs.Seen.{state};
ghost use Rattle.memory.specs.Fields.{parent, first_child};
ghost use Rattle.rollup.specs.Chained.{LinkedIn};

use memory::{Tables, fields};
use std::marker::Model;

// What is left of the children of summary `of`, seen as the list of them: from `at` on, each names the next, and the last names the number of the activities, which is none.
// It is no `memory::chain::Chain`: that walks rows of links, this one rows of activities, and a type for both would take the table and its bound.
#[derive(Drop)]
pub(crate) struct Children<'a, 'b> {
    tables: &'a Tables<'b>,
    of: usize,
    at: usize,
}

impl<'a, 'b> Model for Children<'a, 'b> {
    ghost use Rattle.std.specs.Prelude.{List, ℕ, suc};
    ghost use Rattle.memory.specs.Fields.{parent};
    ghost use Rattle.memory.specs.Seen.{state};
    ghost use Rattle.cells.specs.Chain.{after};
    ghost use Rattle.rollup.specs.Children.{Standing};

    ghost Value = { List ℕ };

    ghost view = { λ c. after ((state c.tables.now).act parent) c.tables.now.activities (suc c.of) c.at };

    ghost invariant = { λ c. Standing (state c.tables.now) c.tables.now.activities c.of c.at };
}

impl<'a, 'b> Children<'a, 'b> {
    // The children of summary `s` after its child `c`, in rising order, by their chain.
    pub(crate) fn after(tables: &'a Tables<'b>, s: usize, c: usize) -> Children<'a, 'b>
        requires { (c < tables.now.activities) × ((state tables.now).act parent c ≡ suc s) × LinkedIn parent first_child tables.now.activities 0 (state tables.now) }
        ensures { result ≡ after ((state tables.now).act parent) tables.now.activities (suc s) (c + 1) }
    {
        Children {
            tables,
            of: s,
            at: tables.act(c, fields::NEXT_CHILD) as usize,
        }
    }
}

impl<'a, 'b> Iterator for Children<'a, 'b> {
    type Item = usize;

    ghost next_gives = { YieldsFirst (λ children. children) };

    ghost remaining = { item_count (λ children. children) };

    fn next(&mut self) -> Option<usize> {
        if self.at >= self.tables.activities {
            return None;
        }
        let c = self.at;
        self.at = self.tables.act(c, fields::NEXT_CHILD) as usize;
        Some(c)
    }
}
