//! The table of a cue by value, for callers that take its lists as slices. Rests on the definitions of Parts, Kept and Handed.
//! Of an accepted sheet and one of its entries it is that cue's table (proofs/Tables.antt). Numbers for which there is no room are left out.
#![tactic(auto, using(crate::proofs::Stated::reading))]

ghost use Rattle.std.specs.Prelude.{◌≡◌};
ghost use Rattle.sheet.specs.Kept.{Kept};

use super::fields::Raw;
use super::parts::Parts;
use rules::{Entry, MOST_FAULTS, MOST_WAYS, Words};

/// A cue's table: the first `faults` weights, the first `ways` words of each kind, and zeros behind them.
/// No `ArrayVec`, for a table may be copied, and no list type of its own, which would be two: a generic struct has no array of a type parameter.
/// Two lists for the ways, as C and a run take them.
#[derive(Clone, Copy)]
pub struct TableArrays {
    pub weights: [u32; MOST_FAULTS],
    pub faults: usize,
    pub present: [u64; MOST_WAYS],
    pub absent: [u64; MOST_WAYS],
    pub ways: usize,
    ghost weights_kept: { Kept 64 faults weights },
    ghost present_kept: { Kept 128 ways present },
    ghost absent_kept: { Kept 128 ways absent },
}

impl Default for TableArrays {
    ghost use Rattle.std.specs.Prelude.{[]};
    ghost use Rattle.rules.specs.Table.{table};
    ghost use Rattle.sheet.specs.Handed.{as_table};

    ghost is_default = { λ t. as_table t ≡ table [] [] [] };

    /// No fault and no way.
    fn default() -> TableArrays {
        TableArrays {
            weights: [0; MOST_FAULTS],
            faults: 0,
            present: [0; MOST_WAYS],
            absent: [0; MOST_WAYS],
            ways: 0,
        }
    }
}

impl TableArrays {
    ghost use Rattle.std.specs.Prelude.{◌∷◌, [], ◌++◌, ◌+◌, ◌-◌, ◌<◌, ◌↔◌, IsSome, IfSome, IfNone, length, map, min, take};
    ghost use Rattle.rules.specs.Table.{table};
    ghost use Rattle.sheet.specs.Handed.{as_table, SameWeights, SameWays};

    /// Its weights.
    pub fn weights(&self) -> &[u32]
        ensures { result.now ≡ (as_table self.now).weights }
    {
        &self.weights[..self.faults]
    }

    /// The present words of its ways.
    pub fn present(&self) -> &[u64]
        ensures { result.now ≡ (as_table self.now).present }
    {
        &self.present[..self.ways]
    }

    /// The absent words of its ways.
    pub fn absent(&self) -> &[u64]
        ensures { result.now ≡ (as_table self.now).absent }
    {
        &self.absent[..self.ways]
    }

    /// It has no weight from now on.
    fn clear_weights(&mut self)
        ensures faults { self.new.faults ≡ 0 }
        ensures ways { SameWays self.new self.old }
    {
        while self.faults > 0 {
            let _ = self.pop_weight();
        }
    }

    /// It has no way from now on.
    fn clear_ways(&mut self)
        ensures ways { self.new.ways ≡ 0 }
        ensures weights { SameWeights self.new self.old }
    {
        while self.ways > 0 {
            let _ = self.pop_way();
        }
    }

    /// Its last weight, if it has any, which is gone from now on.
    pub fn pop_weight(&mut self) -> Option<u32>
        ensures variant { IsSome result ↔ (0 < self.old.faults) }
        ensures weights { IfSome result (λ w. (as_table self.old).weights ≡ (as_table self.new).weights ++ w ∷ []) }
        ensures faults { self.new.faults ≡ self.old.faults - 1 }
        ensures ways { SameWays self.new self.old }
        ensures empty { IfNone result (self.new ≡ self.old) }
    {
        if self.faults == 0 {
            return None;
        }
        self.faults -= 1;
        let weight = self.weights[self.faults];
        self.weights[self.faults] = 0;
        Some(weight)
    }

    /// Its last way, if it has any, which is gone from now on.
    pub fn pop_way(&mut self) -> Option<Words>
        ensures variant { IsSome result ↔ (0 < self.old.ways) }
        ensures present { IfSome result (λ w. (as_table self.old).present ≡ (as_table self.new).present ++ w.present ∷ []) }
        ensures absent { IfSome result (λ w. (as_table self.old).absent ≡ (as_table self.new).absent ++ w.absent ∷ []) }
        ensures ways { self.new.ways ≡ self.old.ways - 1 }
        ensures weights { SameWeights self.new self.old }
        ensures empty { IfNone result (self.new ≡ self.old) }
    {
        if self.ways == 0 {
            return None;
        }
        self.ways -= 1;
        let present = self.present[self.ways];
        let absent = self.absent[self.ways];
        self.present[self.ways] = 0;
        self.absent[self.ways] = 0;
        Some(Words { present, absent })
    }

    /// It has this weight too from now on, behind the others. There must be room.
    pub fn push_weight(&mut self, weight: u32)
        requires { self.old.faults < 64 }
        ensures weights { (as_table self.new).weights ≡ (as_table self.old).weights ++ weight ∷ [] }
        ensures faults { self.new.faults ≡ self.old.faults + 1 }
        ensures ways { SameWays self.new self.old }
    {
        self.weights[self.faults] = weight;
        self.faults += 1;
    }

    /// It has this way too from now on, behind the others. There must be room.
    pub fn push_way(&mut self, way: Words)
        requires { self.old.ways < 128 }
        ensures present { (as_table self.new).present ≡ (as_table self.old).present ++ way.present ∷ [] }
        ensures absent { (as_table self.new).absent ≡ (as_table self.old).absent ++ way.absent ∷ [] }
        ensures ways { self.new.ways ≡ self.old.ways + 1 }
        ensures weights { SameWeights self.new self.old }
    {
        self.present[self.ways] = way.present;
        self.absent[self.ways] = way.absent;
        self.ways += 1;
    }

    /// Its weights are these from now on.
    pub fn set_weights(&mut self, weights: Parts<'_, u32>)
        ensures table { as_table self.new ≡ table (take 64 weights.entry) (as_table self.old).present (as_table self.old).absent }
        ensures faults { self.new.faults ≡ min 64 (length weights.entry) }
        ensures ways { SameWays self.new self.old }
    {
        self.clear_weights();
        for weight in weights.take(MOST_FAULTS) {
            self.push_weight(weight);
        }
    }

    /// Its ways are these from now on.
    pub fn set_ways(&mut self, ways: Parts<'_, Words>)
        ensures table { as_table self.new ≡ table (as_table self.old).weights
            (take 128 (map (λ w. w.present) ways.entry)) (take 128 (map (λ w. w.absent) ways.entry)) }
        ensures ways { self.new.ways ≡ min 128 (length ways.entry) }
        ensures weights { SameWeights self.new self.old }
    {
        self.clear_ways();
        for way in ways.take(MOST_WAYS) {
            self.push_way(way);
        }
    }
}

impl Raw<'_> {
    ghost use Rattle.sheet.specs.Handed.{table_at, as_table, HandedOver};

    /// The table of an entry, whether or not the entry comes from the sheet.
    #[tactic(auto, using(crate::proofs::Kept::handing), unfolding(crate::specs::Handed::table_at))]
    pub fn table(self, entry: Entry) -> TableArrays
        ensures table { as_table result ≡ table_at self.entry.bytes.now entry }
        ensures handed { HandedOver self.entry.bytes.now entry result }
    {
        let mut table = TableArrays::default();
        table.set_weights(self.weights());
        table.set_ways(self.ways(entry));
        table
    }
}
