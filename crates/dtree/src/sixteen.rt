//! Refusal 16: whether a tree, whatever it holds, is one that the table and some series of accepted refinements gives.
//! The refinements that the records tell are made again from the root leaf, and the outcome is compared.
//! Rests on `records`, where `is_good` is defined and Rebuilt shows that this decides it, on `node` and `grow`, and on `store` for what is told.
ghost use Rattle.std.specs.Prelude.{◌≡◌, true};
ghost use Rattle.checks.specs.Tables.{table_of};
ghost use Rattle.records.specs.Records.{is_good, no_nodes, Good};
ghost use Rattle.records.specs.Safe.{Safe};
ghost use Rattle.dtree.specs.Remade.{Remade};

use super::opening::put_root;
use checks::accepted::Table;
use formula::child::possible;
use grow::refine::grow;
use node::told::ways_of;
use records::{NO_NODES, Tree};
use store::Lent;

// `Good` stays a clause, for the reason that stands at `run_on` (running).
/// Makes on `again` the next refinement that the records of `told` tell, and says whether it could. Its place is the parent of the next left child,
/// its kind what that parent says was done.
fn remake<T: Lent>(table: Table, told: &T, again: &mut Tree) -> bool
    requires { Good (table_of table) again.old }
    ensures { Remade (table_of table.entry) (T.tree told.now) again.old again.new result }
{
    if again.is_full() {
        return false;
    }
    let next = again.used;
    let j = told.record(next).parent;
    if next <= j {
        return false;
    }
    if !again.nodes[j].is_live() {
        return false;
    }
    let kind = told.record(j).kind();
    let c = ways_of(table.rows(), &again.nodes[j]);
    let may = possible(kind, c);
    if !may {
        return false;
    }
    grow(table, again, c, kind, j);
    true
}

/// Makes on `again`, which has no nodes yet, the tree that the records of `told` tell, and says whether that is the tree itself: then the tree is good, and
/// `again` is it.
pub fn rebuild<T: Lent>(table: Table, told: &T, again: &mut Tree) -> bool
    requires { again.old ≡ no_nodes }
    ensures answer { result ≡ is_good (table_of table.entry) (T.tree told.now) }
    ensures made { result ≡ true → again.new ≡ T.tree told.now }
{
    let used = told.used();
    if used % 2 == 0 {
        return false;
    }
    put_root(table, again);
    for _ in 0..used / 2 {
        if !remake(table, told, again) {
            return false;
        }
    }
    told.same_nodes(again)
}

/// The tree is good, and then code may follow its records.
#[tactic(auto, unfolding(records::specs::Records::no_nodes))]
pub fn is_good<T: Lent>(table: Table, tree: &T) -> bool
    ensures answer { result ≡ is_good (table_of table.entry) (T.tree tree.now) }
    ensures safe { result ≡ true → Safe (T.tree tree.now).nodes }
{
    let mut again = NO_NODES;
    rebuild(table, tree, &mut again)
}
