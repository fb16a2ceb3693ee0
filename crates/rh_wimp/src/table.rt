//! A table: a row of at most `CAP` elements, which lie in the value itself. No call takes memory.
//!
//! It is used as a `Vec` is: `Table::new()`, `table.push(x)` where there is room, `table.remove(i)`,
//! `table[i]`, `table[i] = x`, `&mut table[i]`, `table.iter()`, `for x in &table`, `table.len()`.
//! In clauses its elements are `table.items` and its length is `length table.items`.
ghost use Rattle.std.specs.Prelude.{◌≡◌, ◌+◌, ◌<◌, ◌≤◌, [], ◌∷◌, ◌++◌, length, slice_index_or, remove};

mod access;

use arrayvec::ArrayVec;
use std::marker::Model;

/// At most `CAP` elements in a row, which are indexed as those of a `Vec`.
#[derive(Drop)]
pub struct Table<T, const CAP: usize> {
    pub(crate) row: ArrayVec<T, CAP>,
}

impl<T, const CAP: usize> Model for Table<T, CAP> {
    ghost use Rattle.arrayvec.specs.ArrayVec.{ArrayVec as Items, array_vec_code};

    ghost Value = { Items T };

    ghost coded = { array_vec_code T.code };

    ghost view = { λ t. t.row };
}

impl<T: Default, const CAP: usize> Table<T, CAP> {
    /// An empty table.
    pub fn new() -> Table<T, CAP>
        ensures { result.items ≡ [] }
    {
        Table {
            row: ArrayVec::new(),
        }
    }
}

impl<T, const CAP: usize> Table<T, CAP> {
    /// The number of elements.
    #[inline]
    pub fn len(&self) -> usize
        ensures value { result ≡ length self.now.items }
        ensures fits { result ≤ CAP }
    {
        self.row.len()
    }

    /// The elements.
    #[inline]
    pub fn as_slice(&self) -> &[T]
        ensures value { result.now ≡ self.now.items }
        ensures fits { length result.now ≤ CAP }
    {
        self.row.as_slice()
    }
}

impl<T: Drop, const CAP: usize> Table<T, CAP> {
    /// Appends the element. There must be room.
    #[inline]
    pub fn push(&mut self, element: T)
        requires { length self.old.items < CAP }
        ensures items { self.new.items ≡ self.old.items ++ element ∷ [] }
        ensures len { length self.new.items ≡ length self.old.items + 1 }
    {
        self.row.push(element);
    }
}

impl<T: Default + Drop, const CAP: usize> Table<T, CAP> {
    /// Removes the element at `index`, and moves the later ones down.
    pub fn remove(&mut self, index: usize) -> T
        requires { index < length self.old.items }
        ensures value { result ≡ slice_index_or self.old.items index result }
        ensures items { self.new.items ≡ remove self.old.items index }
        ensures len { length self.new.items + 1 ≡ length self.old.items }
    {
        self.row.remove(index)
    }
}
