//! The keys of the tables.
ghost use Rattle.std.specs.Cmp.{int_cmp_total};
ghost use Rattle.std.specs.Cmp.Lexicographic.{nat_list_cmp_total};
ghost use Rattle.std.specs.FinMap.{int_cmp-IsAntisymmetric, nat_cmp-IsAntisymmetric};
ghost use Rattle.std.specs.FinMap.{slice_cmp-IsAntisymmetric};
ghost use Rattle.std.specs.Ordering.{int_cmp};
ghost use Rattle.value_core.specs.Orders.{bytes_cmp};
ghost use Rattle.keeper_core.specs.Contents.{key_cmp, key_cmp_total, old_key_cmp, old_key_cmp_total};
ghost use Rattle.keeper_core.specs.inside.KeyTies.{key_cmp_antisymmetric, old_key_cmp_antisymmetric};

use crate::sorted::Key;
use crate::tables::{CacheKey, OldCacheKey};
use std::cmp::Ordering;
use value_core::ListOf;

impl Key for i64 {
    ghost order = { int_cmp };

    ghost total = { int_cmp_total };

    ghost antisymmetric = { int_cmp-IsAntisymmetric };

    fn order_to(&self, other: &i64) -> Ordering {
        self.cmp(other)
    }
}

impl Key for ListOf<u8> {
    ghost order = { bytes_cmp };

    ghost total = { nat_list_cmp_total };

    ghost antisymmetric = { slice_cmp-IsAntisymmetric nat_cmp-IsAntisymmetric };

    fn order_to(&self, other: &ListOf<u8>) -> Ordering {
        self.as_slice().cmp(other.as_slice())
    }
}

impl Key for CacheKey {
    ghost order = { key_cmp };

    ghost total = { key_cmp_total };

    ghost antisymmetric = { key_cmp_antisymmetric };

    fn order_to(&self, other: &CacheKey) -> Ordering {
        let by_op = self.op.order_to(&other.op);
        let by_key = self.ckey.order_to(&other.ckey);
        by_op.then(by_key.then(self.khash.order_to(&other.khash)))
    }
}

impl Key for OldCacheKey {
    ghost order = { old_key_cmp };

    ghost total = { old_key_cmp_total };

    ghost antisymmetric = { old_key_cmp_antisymmetric };

    fn order_to(&self, other: &OldCacheKey) -> Ordering {
        let by_op = self.op.order_to(&other.op);
        by_op.then(self.ckey.order_to(&other.ckey))
    }
}
