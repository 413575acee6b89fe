// The rest of the lent memory: every cell that no pass reads of the checks is made 0.
#![tactic(auto)]

ghost use Rattle.std.specs.Prelude.{◌≡◌, ℕ, ◌+◌, ◌*◌, ◌≤◌, pos, length};
ghost use Rattle.cells.specs.Cell.{cell_z};
ghost use Rattle.memory.specs.Seen.{state, SameSlice};
ghost use Rattle.rest.specs.Stands.{of_activity, of_link, Cleared, ColumnsCleared, rest_cleared};

use memory::{Tables, fields};

// Makes the cells from `from` up to `to` 0.
// A function of its own: its contract says of each cell what it holds, where that of `cells::fill` is a run of stores, and five calls need the former.
fn clear_cells(work: &mut [i64], from: usize, to: usize)
    requires { (from ≤ to) × (to ≤ length work.old) }
    ensures { Cleared from to work.old work.new }
{
    cells::fill(work, from, to - from, 0);
}

// The columns of the activities.
// By places in the cells, here and below: fields that lie side by side are cleared by one store, and the cells past the tables are no field's.
fn clear_activities(tables: &mut Tables)
    ensures { ColumnsCleared 0 tables.old.activities of_activity 0 64 tables.old.cells.now tables.new.cells.now × SameSlice tables.old tables.new }
{
    clear_cells(tables.cells, 0, fields::PARENT * tables.activities);
    clear_cells(
        tables.cells,
        fields::WAITING * tables.activities,
        fields::ORDER_AT * tables.activities,
    );
    clear_cells(
        tables.cells,
        fields::SEEN * tables.activities,
        64 * tables.activities,
    );
}

// The columns of links that have fields of kept ones, which come first; they stand after those of the activities.
fn clear_links(tables: &mut Tables)
    ensures { ColumnsCleared (64 * tables.old.activities) tables.old.links (of_link tables.old.kept) 0 7 tables.old.cells.now tables.new.cells.now × SameSlice tables.old tables.new }
{
    for f in 0..=fields::NEXT_OUT {
        let column = 64 * tables.activities + f * tables.links;
        clear_cells(tables.cells, column + tables.kept, column + tables.links);
    }
}

// Leaves of the activities and of the kept links what stands for the passes; every other cell is 0.
pub fn clear_rest(tables: &mut Tables)
    ensures { (state tables.new ≡ rest_cleared tables.old.kept (state tables.old)) × ((j : ℕ) → 64 * tables.old.activities + 16 * tables.old.links ≤ j → cell_z tables.new.cells.now j ≡ pos 0) × SameSlice tables.old tables.new }
{
    clear_activities(tables);
    clear_links(tables);
    let end = tables.cells.len();
    clear_cells(
        tables.cells,
        64 * tables.activities + (fields::NEXT_OUT + 1) * tables.links,
        end,
    );
}
