//! Lists of a fixed room: what comes when the room is full is left out. No heap is needed for them.
ghost use Rattle.std.specs.Prelude.{◌≡◌, [], ◌∷◌, ◌++◌, take};

use arrayvec::ArrayVec;

/// Appends an item if there is room.
pub fn keep<T: Drop, const N: usize>(list: &mut ArrayVec<T, N>, item: T)
    ensures { list.new.items ≡ take N (list.old.items ++ item ∷ []) }
{
    let _ = list.try_push(item);
}
