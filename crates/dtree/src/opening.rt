//! The opening: a table is accepted with its root leaf, or refused by the first number that applies.
//! Rests on `checks` for the refusals, on `clauses` and `node` for the root leaf's record, and on `store` for the lent tree.
ghost use Rattle.std.specs.Prelude.{◌≡◌, []};
ghost use Rattle.rules.specs.Table.{table};
ghost use Rattle.checks.specs.Tables.{table_of};
ghost use Rattle.records.specs.Records.{no_nodes, record_at, layout};
ghost use Rattle.dtree.specs.Promises.{root_figures, Opening};

use chances::weights::Weights;
use checks::accepted::Table;
use clauses::Clauses;
use node::leaf_record;
use records::Node;
use rules::{Figures, Refusal};
use store::Lent;

/// The record of the root leaf of an accepted table.
pub fn root_leaf(table: Table) -> Node
    ensures { result ≡ record_at (table_of table.entry) [] [] }
{
    leaf_record(Clauses::staying_rows(table.rows()), Weights::from(table), 0)
}

/// Makes a tree without nodes one that is the root leaf alone: no refinement is made yet.
pub fn put_root<T: Lent>(table: Table, tree: &mut T)
    requires { T.tree tree.old ≡ no_nodes }
    ensures { T.tree tree.new ≡ layout (table_of table.entry) [] }
{
    tree.put_record(0, root_leaf(table));
    tree.put_used(1);
}

/// What an accepted call hands back that made so many refinements: the interval then at the root, and their number.
pub fn figures<T: Lent>(tree: &T, count: u64) -> Figures
    ensures { result ≡ root_figures (T.tree tree.now) count }
{
    let root = tree.record(0);
    Figures {
        low: root.low,
        high: root.high,
        count,
    }
}

// The three lists come one by one, here and in the other calls, as C lends them: a struct would be made for one call and taken apart in it.
/// Opens a table. What the tree held before does not matter.
pub fn open<T: Lent>(
    weights: &[u32],
    present: &[u64],
    absent: &[u64],
    tree: &mut T,
) -> Result<Figures, Refusal>
    ensures promise { Opening (table weights.now present.now absent.now)
        (T.tree tree.new) result }
{
    tree.clear();
    let table = Table::accept(weights, present, absent)?;
    put_root(table, tree);
    Ok(figures(tree, 0))
}
