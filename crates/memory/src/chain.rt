// The links of a chain, one after another.
#![tactic(auto)]

ghost use Rattle.std.specs.Prelude.{◌≡◌, ◌<◌};
ghost use Rattle.std.specs.Iterator.{YieldsFirst, item_count};
ghost use Rattle.cells.specs.Chain.{after};
ghost use Rattle.memory.specs.Seen.{state};
ghost use Rattle.memory.specs.Chains.{ChainsIn, ChainsOut};
ghost use Rattle.memory.specs.Fields.{from_field, to_field};

use crate::reads::Reads;
use crate::{Tables, fields};
use std::marker::Model;

// What is left of a chain of links, seen as the list of them: from `at` on, the kept links whose field `key` is activity `of`.
// Each names the next by its field `next`, and the last names the number of the kept links, which is none.
#[derive(Drop)]
pub struct Chain<'a, R: Reads> {
    tables: &'a R,
    key: usize,
    next: usize,
    of: usize,
    at: usize,
}

impl<'a, R: Reads> Model for Chain<'a, R> {
    ghost use Rattle.std.specs.Prelude.{List, ℕ};
    ghost use Rattle.memory.specs.Seen.{state};
    ghost use Rattle.memory.specs.Left.{left, Standing};

    ghost Value = { List ℕ };

    ghost view = { λ c. left (state (R.tables c.tables.now)) (R.tables c.tables.now).kept c.key c.of c.at };

    ghost invariant = { λ c. Standing (state (R.tables c.tables.now)) (R.tables c.tables.now).kept c.key c.next c.of c.at };
}

impl<'a, R: Reads> Iterator for Chain<'a, R> {
    type Item = usize;

    ghost next_gives = { YieldsFirst (λ links. links) };

    ghost remaining = { item_count (λ links. links) };

    fn next(&mut self) -> Option<usize> {
        if self.at >= self.tables.kept() {
            return None;
        }
        let k = self.at;
        self.at = self.tables.link(k, self.next) as usize;
        Some(k)
    }
}

// Two struct literals, whose fields say which number is which: one constructor would take the three fields of a chain as numbers in a row.
// The kept links into activity `i`, in rising order.
pub(crate) fn into<'a, R: Reads>(tables: &'a R, i: usize) -> Chain<'a, R>
    requires { (i < (R.tables tables.now).activities) × ChainsIn (R.tables tables.now).activities (R.tables tables.now).kept (state (R.tables tables.now)) }
    ensures { result ≡ after ((state (R.tables tables.now)).link to_field) (R.tables tables.now).kept i 0 }
{
    Chain {
        tables,
        key: fields::TO,
        next: fields::NEXT_INTO,
        of: i,
        at: tables.act(i, fields::FIRST_IN) as usize,
    }
}

// The kept links out of activity `i`, in rising order.
pub(crate) fn out_of<'a, R: Reads>(tables: &'a R, i: usize) -> Chain<'a, R>
    requires { (i < (R.tables tables.now).activities) × ChainsOut (R.tables tables.now).activities (R.tables tables.now).kept (state (R.tables tables.now)) }
    ensures { result ≡ after ((state (R.tables tables.now)).link from_field) (R.tables tables.now).kept i 0 }
{
    Chain {
        tables,
        key: fields::FROM,
        next: fields::NEXT_OUT,
        of: i,
        at: tables.act(i, fields::FIRST_OUT) as usize,
    }
}

impl<'b> Tables<'b> {
    // The kept links into activity `i`, in rising order, by their chain.
    pub fn links_into<'a>(&'a self, i: usize) -> Chain<'a, Tables<'b>>
        requires { (i < self.now.activities) × ChainsIn self.now.activities self.now.kept (state self.now) }
        ensures { result ≡ after ((state self.now).link to_field) self.now.kept i 0 }
    {
        into(self, i)
    }

    // The kept links out of activity `i`, in rising order, by their chain.
    pub fn links_out<'a>(&'a self, i: usize) -> Chain<'a, Tables<'b>>
        requires { (i < self.now.activities) × ChainsOut self.now.activities self.now.kept (state self.now) }
        ensures { result ≡ after ((state self.now).link from_field) self.now.kept i 0 }
    {
        out_of(self, i)
    }
}
