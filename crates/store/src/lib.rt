//! A tree as it is lent to a call, which reads and writes it where it is: as C lends it, in words, the records one after the other, a word for each field
//! in the order of the fields, and the last word says how many records are in use; or as a `Tree`. What a call needs of either is the trait `Lent`.
//! Rests on `records`, whose specs/Lent.antt has the tree of the words.
#![tactic(auto)]

ghost use Rattle.std.specs.Prelude.{◌≡◌, ◌<◌, length};
ghost use Rattle.records.specs.Lent.{tree_of};
ghost use Rattle.records.specs.Records.{no_nodes, record_in, same_nodes, tree_records};
ghost use Rattle.records.specs.declared.Tree.{Tree};
ghost use Rattle.store.specs.Lent.{Behind, with_record, with_used};

use records::{Node, RECORDS, Tree};

/// The fields of a record, each a word.
pub const FIELDS: usize = 14;

/// The word that says how many records are in use: the one after the records.
pub const COUNT: usize = FIELDS * RECORDS;

/// The words of a tree.
pub const WORDS: usize = COUNT + 1;

/// A tree, as C lends it.
pub type Words = [u64; WORDS];

/// Does nothing: lending the words as a slice tells a proof that they are all there.
fn all_words(words: &[u64]) {}

/// Record j of the tree.
pub fn record_at(tree: &Words, j: usize) -> Node
    requires { j < tree_records }
    ensures { result ≡ record_in (tree_of tree.now).nodes j }
{
    let i = FIELDS * j;
    Node {
        kind: tree[i],
        fault: tree[i + 1],
        live: tree[i + 2],
        parent: tree[i + 3] as usize,
        left: tree[i + 4] as usize,
        waysa: tree[i + 5],
        waysb: tree[i + 6],
        present: tree[i + 7],
        absent: tree[i + 8],
        out: tree[i + 9],
        low: tree[i + 10],
        high: tree[i + 11],
        ownlow: tree[i + 12],
        ownhigh: tree[i + 13],
    }
}

/// Writes record j.
pub fn put_record(tree: &mut Words, j: usize, n: Node)
    requires { j < tree_records }
    ensures { tree_of tree.new ≡ with_record (tree_of tree.old) j n }
{
    all_words(tree);
    let i = FIELDS * j;
    tree[i] = n.kind;
    tree[i + 1] = n.fault;
    tree[i + 2] = n.live;
    tree[i + 3] = n.parent as u64;
    tree[i + 4] = n.left as u64;
    tree[i + 5] = n.waysa;
    tree[i + 6] = n.waysb;
    tree[i + 7] = n.present;
    tree[i + 8] = n.absent;
    tree[i + 9] = n.out;
    tree[i + 10] = n.low;
    tree[i + 11] = n.high;
    tree[i + 12] = n.ownlow;
    tree[i + 13] = n.ownhigh;
}

/// How many records are in use.
pub fn used_in(tree: &Words) -> usize
    ensures { result ≡ (tree_of tree.now).used }
{
    tree[COUNT] as usize
}

/// Writes how many records are in use.
pub fn put_used(tree: &mut Words, n: usize)
    ensures { tree_of tree.new ≡ with_used (tree_of tree.old) n }
{
    all_words(tree);
    tree[COUNT] = n as u64;
}

// Never inlined, for the reason at `same_nodes` of `records`.
/// All records are the given ones. Every word is compared, with no way out before the last.
#[inline(never)]
pub fn same_records(tree: &Words, nodes: &[Node]) -> bool
    requires { length nodes.now ≡ tree_records }
    ensures { result ≡ same_nodes (tree_of tree.now).nodes nodes.now }
{
    let mut unlike = 0;
    for (j, node) in nodes.iter().enumerate() {
        unlike |= record_at(tree, j).unlike(node);
    }
    unlike == 0
}

/// Makes it a tree without nodes.
pub fn clear(tree: &mut Words)
    ensures { tree_of tree.new ≡ no_nodes }
{
    *tree = [0; WORDS];
}

/// A tree as it is lent, in either form.
pub trait Lent {
    ghost tree: { Self → Tree };

    /// How many records are in use.
    fn used(&self) -> usize
        ensures { result ≡ (tree self.now).used };

    /// Record j.
    fn record(&self, j: usize) -> Node
        requires { j < tree_records }
        ensures { result ≡ record_in (tree self.now).nodes j };

    /// All records are those of the other tree.
    fn same_nodes(&self, other: &Tree) -> bool
        ensures { result ≡ same_nodes (tree self.now).nodes other.now.nodes };

    /// Writes how many records are in use.
    fn put_used(&mut self, n: usize)
        ensures { tree self.new ≡ with_used (tree self.old) n };

    /// Writes record j.
    fn put_record(&mut self, j: usize, n: Node)
        requires { j < tree_records }
        ensures { tree self.new ≡ with_record (tree self.old) j n };

    /// Makes it a tree without nodes.
    fn clear(&mut self)
        ensures { tree self.new ≡ no_nodes };
}

impl Lent for Words {
    ghost tree = { tree_of };

    fn used(&self) -> usize {
        used_in(self)
    }

    fn record(&self, j: usize) -> Node {
        record_at(self, j)
    }

    fn same_nodes(&self, other: &Tree) -> bool {
        same_records(self, &other.nodes)
    }

    fn put_used(&mut self, n: usize) {
        put_used(self, n);
    }

    fn put_record(&mut self, j: usize, n: Node) {
        put_record(self, j, n);
    }

    fn clear(&mut self) {
        clear(self);
    }
}

impl Lent for Tree {
    ghost tree = { λ x. x };

    fn used(&self) -> usize {
        self.used
    }

    fn record(&self, j: usize) -> Node {
        self.nodes[j]
    }

    fn same_nodes(&self, other: &Tree) -> bool {
        self.same_nodes(other)
    }

    fn put_used(&mut self, n: usize) {
        self.used = n;
    }

    fn put_record(&mut self, j: usize, n: Node) {
        self.nodes[j] = n;
    }

    fn clear(&mut self) {
        self.clear();
    }
}

/// Puts back what a call made of a tree: its records in use, and their number. What lies behind them is there already.
pub fn put_back<T: Lent>(tree: &mut T, made: &Tree)
    requires { Behind (T.tree tree.old) made.now }
    ensures { T.tree tree.new ≡ made.now }
{
    for j in 0..made.used {
        tree.put_record(j, made.nodes[j]);
    }
    tree.put_used(made.used);
}
