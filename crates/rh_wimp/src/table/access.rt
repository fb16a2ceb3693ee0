//! The elements of a table, by index and in turn.
ghost use Rattle.std.specs.Prelude.{◌≡◌, ◌^◌, ◌<◌, ◌≤◌, length, slice_index_or};
ghost use Rattle.std.specs.Borrow.{sem};
ghost use Rattle.std.specs.Iterator.Runs.{EveryRun, ItemsMapTo};
ghost use Rattle.std.specs.Slice.Iter.{iter_rest, iter_steps};
ghost use Rattle.rh_wimp.specs.TableLends.{lends_item};

use crate::table::Table;
use std::ops::{DerefSlice, Index, IndexMut};
use std::slice;

impl<T, const CAP: usize> Index<usize> for Table<T, CAP> {
    type Output = T;

    ghost can_index = { λ t i. i < length t.items };

    ghost index_gives = { λ t i x. x ≡ slice_index_or t.items i x };

    #[inline]
    fn index(&self, index: usize) -> &T
        requires { index < length self.now.items }
        ensures { result.now ≡ slice_index_or self.now.items index result.now }
    {
        &self.as_slice()[index]
    }
}

impl<T, const CAP: usize> IndexMut<usize> for Table<T, CAP> {
    #[inline]
    fn index_mut(&mut self, index: usize) -> &mut T
        requires { index < length self.old.items }
        ensures* writes_back { sem 𝓛 (lends_item T.row CAP.row self.entry index result) }
        ensures value { result.now ≡ slice_index_or self.old.items index result.now }
    {
        self.row.get_mut(index).unwrap()
    }
}

impl<T, const CAP: usize> DerefSlice for Table<T, CAP> {
    type Elem = T;

    ghost deref_gives = { λ t xs. (xs ≡ t.items) × (length xs ≤ CAP) };

    #[inline]
    fn deref(&self) -> &[T] {
        self.row.as_slice()
    }
}

impl<'a, T, const CAP: usize> IntoIterator for &'a Table<T, CAP> {
    type Item = &'a T;

    type IntoIter = slice::Iter<'a, T>;

    ghost into_iter_gives = { λ t it. (iter_rest it ≡ t.now.items) × (length (iter_rest it) < 2 ^ 64)
        × EveryRun (iter_steps {A = T}) (λ p. ItemsMapTo p (λ x. x.now) (iter_rest p.from)) };

    fn into_iter(self) -> slice::Iter<'a, T> {
        self.as_slice().iter()
    }
}
