// The lent work memory: two tables, of 64 fields of each activity and, after them, 16 of each link, laid out field by field, since a pass reads few fields of many rows;
// but eight fields of a result, which are written and read together, row by row.
#![tactic(auto)]

ghost use Rattle.std.specs.Prelude.{◌≡◌, ◌≢◌, ℕ, ◌+◌, ◌*◌, ◌^◌, ◌≤◌, ◌<◌, ltb, pos, length, replicate};
ghost use Rattle.memory.specs.State.{Room, place, state_of, put_act, put_act_z, put_link, put_link_z, fill_act};

pub mod chain;
pub mod fields;
pub mod reads;

// Where field `f` of row `i` stands in a table of `n` rows.
fn place(n: usize, i: usize, f: usize) -> usize
    requires { (i < n) × (f < 64) × (64 * n < 2 ^ 64) }
    ensures { (result ≡ place n f i) × (result < 64 * n) }
{
    if f < fields::SHOWN_START {
        return f * n + i;
    }
    if f <= fields::IS_LONGEST {
        return fields::SHOWN_START * n + 8 * i + (f - fields::SHOWN_START);
    }
    f * n + i
}

// The tables of so many activities and links, in cells that a caller lends; the first `kept` rows of the link table are the kept links.
// C lends one slice of i64 and the call may not allocate: so a field is a column of the slice and no field of a struct, and a chain or a tree names its next by its row.
// Heads and nexts of a chain hold the number of the rows for none, so that one bound ends a walk: an `Option` would be turned back at each law of chains.
// That a row is one of the tables (`i < activities`, `k < kept`) is a clause wherever one is named: a number with its bound would be made anew for each tables that it is taken to.
#[derive(Drop)]
pub struct Tables<'a> {
    pub cells: &'a mut [i64],
    pub activities: usize,
    pub links: usize,
    pub kept: usize,
    pub ghost room: { Room activities links cells.now },
    pub ghost within: { kept ≤ links },
}

// What a kept link's row has before the chains: its ends by the activities' numbers, the code of its type, and its lag in minutes with the calendar's number.
// The type is a code, as the cell holds it: `dates::Tie` has the enum, which `add_link` would turn into a code, with a law for the way back.
// Its ends are two fields, as in `dates::Tie`: each use takes one of them, and would name a `Link` between.
#[derive(Clone, Copy)]
pub struct KeptLink {
    pub from: usize,
    pub to: usize,
    pub kind: u64,
    pub lag: i64,
    pub calendar: u64,
}

impl<'a> Tables<'a> {
    ghost use Rattle.memory.specs.Seen.{state, SameLent, SameSlice};
    ghost use Rattle.memory.specs.Fields.{is_summary};
    ghost use Rattle.memory.specs.Kept.{with_link};
    ghost use Rattle.memory.specs.Rows.{cell_of};
    ghost use Rattle.memory.specs.Chains.{linked, linked_from, with_chains, Chains};

    // The tables in `cells`, no link kept yet.
    #[tactic(auto, unfolding(crate::specs::Seen::state))]
    pub fn of(cells: &'a mut [i64], activities: usize, links: usize) -> Tables<'a>
        requires { Room activities links cells.old }
        ensures { (state result ≡ state_of activities links cells.old) × (result.activities ≡ activities) × (result.links ≡ links) × (result.kept ≡ 0) × (result.cells.now ≡ cells.old) × (result.cells.ghost_name ≡ cells.entry.ghost_name) }
    {
        Tables {
            cells,
            activities,
            links,
            kept: 0,
        }
    }

    // The first `n` rows of the link table are the kept links.
    #[tactic(auto, unfolding(crate::specs::Seen::state))]
    pub fn keep(&mut self, n: usize)
        requires { n ≤ self.old.links }
        ensures { (state self.new ≡ state self.old) × (self.new.kept ≡ n) × (self.new.cells.now ≡ self.old.cells.now) × SameLent self.old self.new }
    {
        self.kept = n;
    }

    // Keeps one more link, in the row after those of the kept ones.
    pub fn add_link(&mut self, link: KeptLink)
        requires { (self.old.kept < self.old.links) × (link.from < 2 ^ 63) × (link.to < 2 ^ 63) × (link.kind < 2 ^ 63) × (link.calendar < 2 ^ 63) }
        ensures { (state self.new ≡ with_link (state self.old) self.old.kept link) × (self.new.kept ≡ self.old.kept + 1) × SameLent self.old self.new }
    {
        let k = self.kept;
        self.put_link(k, fields::FROM, link.from as u64);
        self.put_link(k, fields::TO, link.to as u64);
        self.put_link(k, fields::KIND, link.kind);
        self.put_link_signed(k, fields::LAG, link.lag);
        self.put_link(k, fields::LAG_CALENDAR, link.calendar);
        self.kept = k + 1;
    }

    // Every cell is 0, also those past the tables.
    pub fn clear(&mut self)
        ensures { (self.new.cells.now ≡ replicate (length self.old.cells.now) (pos 0)) × SameSlice self.old self.new }
    {
        self.cells.fill(0);
    }

    // Field `f` of activity `i`: 0 where it is negative.
    pub fn act(&self, i: usize, f: usize) -> u64
        requires { (i < self.now.activities) × (f < 64) }
        ensures { (result ≡ (state self.now).act f i) × (result < 2 ^ 63) }
    {
        number::sign::upward(self.act_signed(i, f))
    }

    pub fn act_signed(&self, i: usize, f: usize) -> i64
        requires { (i < self.now.activities) × (f < 64) }
        ensures { result ≡ (state self.now).act_z f i }
    {
        self.cells[place(self.activities, i, f)]
    }

    // The row that field `f` of activity `i` names, where it names one.
    pub fn row(&self, i: usize, f: usize) -> Option<usize>
        requires { (i < self.now.activities) × (f < 64) }
        ensures { cell_of result ≡ (state self.now).act f i }
    {
        (self.act(i, f) as usize).checked_sub(1)
    }

    // Whether activity `i` is a summary.
    pub fn is_summary(&self, i: usize) -> bool
        requires { i < self.now.activities }
        ensures { result ≡ ltb 0 ((state self.now).act is_summary i) }
    {
        self.act(i, fields::IS_SUMMARY) > 0
    }

    // Field `f` of link `k`: 0 where it is negative.
    // A link's methods stand beside an activity's: one over a trait of the two tables was tried and is as long, and `get::<Link>(tables, k, f)` reads less plainly.
    pub fn link(&self, k: usize, f: usize) -> u64
        requires { (k < self.now.links) × (f < 16) }
        ensures { (result ≡ (state self.now).link f k) × (result < 2 ^ 63) }
    {
        number::sign::upward(self.link_signed(k, f))
    }

    pub fn link_signed(&self, k: usize, f: usize) -> i64
        requires { (k < self.now.links) × (f < 16) }
        ensures { result ≡ (state self.now).link_z f k }
    {
        self.cells[64 * self.activities + f * self.links + k]
    }

    // Puts `v` into field `f` of activity `i`.
    pub fn put_act(&mut self, i: usize, f: usize, v: u64)
        requires { (i < self.old.activities) × (f < 64) × (v < 2 ^ 63) }
        ensures { (state self.new ≡ put_act (state self.old) f i v) × SameSlice self.old self.new }
    {
        cells::put(self.cells, place(self.activities, i, f), v);
    }

    pub fn put_act_signed(&mut self, i: usize, f: usize, v: i64)
        requires { (i < self.old.activities) × (f < 64) }
        ensures { (state self.new ≡ put_act_z (state self.old) f i v) × SameSlice self.old self.new }
    {
        cells::put_signed(self.cells, place(self.activities, i, f), v);
    }

    // Field `f` of activity `i` names the row, or none.
    pub fn put_row(&mut self, i: usize, f: usize, row: Option<usize>)
        requires { (i < self.old.activities) × (f < 64) × (cell_of row < 2 ^ 63) }
        ensures { (state self.new ≡ put_act (state self.old) f i (cell_of row)) × SameSlice self.old self.new }
    {
        match row {
            Some(j) => self.put_act(i, f, j as u64 + 1),
            None => self.put_act(i, f, 0),
        }
    }

    // Puts `v` into field `f` of link `k`.
    pub fn put_link(&mut self, k: usize, f: usize, v: u64)
        requires { (k < self.old.links) × (f < 16) × (v < 2 ^ 63) }
        ensures { (state self.new ≡ put_link (state self.old) f k v) × SameSlice self.old self.new }
    {
        cells::put(self.cells, 64 * self.activities + f * self.links + k, v);
    }

    pub fn put_link_signed(&mut self, k: usize, f: usize, v: i64)
        requires { (k < self.old.links) × (f < 16) }
        ensures { (state self.new ≡ put_link_z (state self.old) f k v) × SameSlice self.old self.new }
    {
        cells::put_signed(self.cells, 64 * self.activities + f * self.links + k, v);
    }

    // Puts `v` into field `f` of every activity: one by one, since the field may be one of the eight that stand row by row.
    pub fn fill_act(&mut self, f: usize, v: u64)
        requires { (f < 64) × (v < 2 ^ 63) }
        ensures { (state self.new ≡ fill_act (state self.old) f self.old.activities v) × SameSlice self.old self.new }
    {
        for i in 0..self.activities {
            self.put_act(i, f, v);
        }
    }

    // Puts link `k` before the links that have its key.
    // `key`, `head` and `next` are any fields, here and below: a type of the two ways that links are chained would ask more, and be read out again in each.
    fn chain_one(&mut self, k: usize, key: usize, head: usize, next: usize)
        requires { (k < self.old.links) × (key < 16) × (head < 64) × (next < 16) × ((state self.old).link key k < self.old.activities) }
        ensures { (state self.new ≡ linked key head next (state self.old) k) × SameSlice self.old self.new }
    {
        let i = self.link(k, key) as usize;
        let first = self.act(i, head);
        self.put_link(k, next, first);
        self.put_act(i, head, k as u64);
    }

    // Puts the kept links before those that have their keys, from the last to the first.
    fn chain_links(&mut self, key: usize, head: usize, next: usize)
        requires { (key < 16) × (head < 64) × (next < 16) × (key ≢ next) × ((k : ℕ) → k < self.old.kept → (state self.old).link key k < self.old.activities) }
        ensures { (state self.new ≡ linked_from key head next self.old.kept 0 (state self.old)) × SameSlice self.old self.new }
    {
        for k in (0..self.kept).rev() {
            self.chain_one(k, key, head, next);
        }
    }

    // Chains the kept links by their keys: `head` of an activity is the first link whose key it is, and `next` of a link the next with its key, in rising order; their number is none.
    pub fn chain(&mut self, key: usize, head: usize, next: usize)
        requires { (key < 16) × (head < 64) × (next < 16) × (key ≢ next) × ((k : ℕ) → k < self.old.kept → (state self.old).link key k < self.old.activities) }
        ensures { (state self.new ≡ with_chains key head next self.old.activities self.old.kept (state self.old)) × Chains key head next self.old.activities self.old.kept (state self.old) (state self.new) × SameSlice self.old self.new }
    {
        self.fill_act(head, self.kept as u64);
        self.chain_links(key, head, next);
    }
}
