//! The leaves of a tree from left to right, found by the links of its records. Rests on the records of `records`.
ghost use Rattle.std.specs.Prelude.{◌≡◌, ℕ, ◌<◌, ◌++◌, Some, None};
ghost use Rattle.std.specs.Iterator.{YieldsFirstBy, item_count};
ghost use Rattle.pick.specs.Picks.{Linked};
ghost use Rattle.pick.specs.Leaves.{leaves_at, leaves_after, leaves_from};

use records::{Node, Tree};

/// A tree whose links are in order.
#[derive(Clone, Copy)]
pub struct Links<'a> {
    pub tree: &'a Tree,
    ghost in_order: { Linked tree.now.nodes tree.now.used },
}

impl<'a> Links<'a> {
    ghost use Rattle.pick.specs.Going.{leaves_left, placed_all};

    /// All leaves of the tree.
    pub fn leaves(self) -> Leaves<'a>
        ensures { leaves_left result ≡ placed_all self.entry.tree.now (leaves_at self.entry.tree.now 0) }
    {
        Leaves {
            links: self,
            next: Some(self.leftmost(0)),
        }
    }

    /// The leftmost leaf at or below record i.
    #[tactic(auto, using(crate::proofs::LeftToRight::down_to, crate::proofs::LeftToRight::no_further))]
    fn leftmost(self, i: usize) -> usize
        requires { i < self.tree.now.used }
        ensures in_use { result < self.entry.tree.now.used }
        ensures leaves { leaves_from self.entry.tree.now (Some result) ≡ leaves_at self.entry.tree.now i ++ leaves_after self.entry.tree.now i }
    {
        // Down the links: there is no index to go over.
        let mut at = i;
        while let Some(left) = self.tree.nodes[at].left_child() {
            at = left;
        }
        at
    }

    /// The next leaf to the right of record i: the leftmost below the right sibling of i, or of the lowest record above i that has one.
    #[tactic(auto, using(crate::proofs::LeftToRight::up, crate::proofs::LeftToRight::across, crate::proofs::LeftToRight::top))]
    fn right_of(self, i: usize) -> Option<usize>
        requires { i < self.tree.now.used }
        ensures in_use { (j : ℕ) → result ≡ Some j → j < self.entry.tree.now.used }
        ensures leaves { leaves_from self.entry.tree.now result ≡ leaves_after self.entry.tree.now i }
    {
        // Up the links, which end at the root.
        let mut at = i;
        while at != 0 {
            let above = self.tree.nodes[at].parent;
            if self.tree.nodes[above].left == at {
                return Some(self.leftmost(at + 1));
            }
            at = above;
        }
        None
    }
}

/// The leaves of a tree whose links are in order, each with its index: from the one in record `next` on.
#[derive(Drop)]
pub struct Leaves<'a> {
    links: Links<'a>,
    next: Option<usize>,
    ghost in_use: { (i : ℕ) → next ≡ Some i → i < links.tree.now.used },
}

impl<'a> Iterator for Leaves<'a> {
    ghost use Rattle.pick.specs.Going.{leaves_left, lent};

    type Item = (usize, &'a Node);

    ghost next_gives = { YieldsFirstBy lent leaves_left };

    ghost remaining = { item_count leaves_left };

    fn next(&mut self) -> Option<(usize, &'a Node)> {
        let at = self.next?;
        self.next = self.links.right_of(at);
        Some((at, &self.links.tree.nodes[at]))
    }
}
