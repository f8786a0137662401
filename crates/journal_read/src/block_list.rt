// A list with at most one item for each block of a region.
ghost use Rattle.std.specs.Prelude.{◌≡◌, ◌≤◌, length};

use arrayvec::ArrayVec;
use std::marker::Model;

/// At most 128 items, in order: a region has no more blocks. They lie in the value itself, and a copy of it is the same list.
#[derive(Clone, Copy, Debug)]
pub struct BlockList<T> {
    cells: [T; 128],
    count: usize,
}

impl<T> Model for BlockList<T> {
    ghost use Rattle.std.specs.Prelude.{◌≡◌, ◌≤◌, ◌++◌, length, take, drop};
    ghost use Rattle.std.proofs.Common.{arith, take-append-drop, length-take-le};
    ghost use Rattle.journal_read.specs.BlockList.{BlockList as Items, block_list_code};

    ghost Value = { Items T };

    ghost coded = { block_list_code T.code };

    ghost view = { λ l. record { items = take l.count l.cells; spare = drop l.count l.cells } };

    ghost invariant = { λ l. (l.count ≤ 128) × (length l.cells ≡ 128) };

    ghost inverse = { λ l. record { cells = l.items ++ l.spare; count = length l.items } };

    ghost inverse_ok = { λ l h i. record {
      cells = take-append-drop l.count l.cells i;
      count = length-take-le l.count l.cells (omega (arith, h.0, h.1)) i;
    } };
}

impl<T> BlockList<T> {
    /// How many items there are.
    pub fn len(&self) -> usize
        ensures value { result ≡ length self.now.items }
        ensures fits { result ≤ 128 }
    {
        self.count
    }

    /// The items, in order.
    pub fn as_slice(&self) -> &[T]
        ensures value { result.now ≡ self.now.items }
        ensures fits { length result.now ≤ 128 }
    {
        &self.cells[..self.len()]
    }
}

// Lists are equal if their items are, in order; what lies in the unused room does not count.
impl<T: PartialEq> PartialEq for BlockList<T> {
    ghost use Rattle.std.specs.Cmp.{on_per};
    ghost use Rattle.std.specs.Cmp.Lexicographic.{pointwise, lists_per};

    ghost eq = { λ v w. pointwise T.eq v.items w.items };

    ghost laws = { on_per (λ v. v.items) (lists_per T.laws) };

    fn eq(&self, other: &Self) -> bool {
        self.as_slice() == other.as_slice()
    }
}

impl<T: Eq> Eq for BlockList<T> {
    ghost use Rattle.std.specs.Cmp.{on_equiv};
    ghost use Rattle.std.specs.Cmp.Lexicographic.{lists_equiv};

    ghost laws = { on_equiv (λ v. v.items) (lists_equiv T.Eq.laws) };
}

impl<T: Copy + Default> BlockList<T> {
    /// The list of these items.
    pub fn of(items: &ArrayVec<T, 128>) -> Self
        ensures { result.items ≡ items.now.items }
    {
        let mut cells = [T::default(); 128];
        cells[..items.len()].copy_from_slice(items.as_slice());
        BlockList {
            cells,
            count: items.len(),
        }
    }
}
