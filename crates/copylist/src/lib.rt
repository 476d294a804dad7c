// Lists that are copied as a number is: of at most so many elements, which lie in the value itself.
#![tactic(auto)]

mod blank;

ghost use Rattle.std.specs.Prelude.{⊤, ◌≡◌, ◌+◌, ◌^◌, ◌≤◌, ◌<◌, [], ◌∷◌, ◌++◌, length};
ghost use Rattle.std.specs.Iterator.Runs.{EveryRun, ItemsMapTo};
ghost use Rattle.std.specs.Slice.Iter.{iter_rest, iter_steps};

pub use crate::blank::Blank;
use std::alloc::AllocError;
use std::marker::Model;
use std::ops::DerefSlice;
use std::slice::Iter;

// A list of at most CAP elements. Behind the last of them all places are blank, so that equal lists are equal in every place.
pub struct CopyList<T: Blank, const CAP: usize> {
    cells: [T; CAP],
    len: usize,
}

impl<T: Blank, const CAP: usize> Model for CopyList<T, CAP> {
    ghost use Rattle.std.specs.Prelude.{◌≡◌, ◌≤◌, length, take};
    ghost use Rattle.std.proofs.Common.{arith, sym, length-take-le};
    ghost use Rattle.copylist.specs.Listed.{Listed, listed_code, filled};

    ghost Value = { Listed T };

    ghost coded = { listed_code T.code };

    ghost view = { λ l. record { items = take l.len l.cells } };

    ghost invariant = { λ l. (l.len ≤ CAP) × (length l.cells ≡ CAP) × (l.cells ≡ filled CAP T.blank (take l.len l.cells)) };

    ghost inverse = { λ v. record { cells = filled CAP T.blank v.items; len = length v.items } };

    ghost inverse_ok = { λ l h i. record {
      cells = sym h.2 i;
      len = length-take-le l.len l.cells (omega (arith, h.0, h.1)) i;
    } };
}

impl<T: Blank, const CAP: usize> Clone for CopyList<T, CAP> {
    ghost is_clone = { λ l k. k ≡ l };

    ghost is_infallible = { λ _. ⊤ };

    fn clone(&self) -> Result<Self, AllocError> {
        Ok(*self)
    }
}

impl<T: Blank, const CAP: usize> Copy for CopyList<T, CAP> {}

impl<T: Blank, const CAP: usize> Default for CopyList<T, CAP> {
    ghost is_default = { λ l. l.items ≡ [] };

    fn default() -> Self {
        Self::new()
    }
}

impl<T: Blank, const CAP: usize> CopyList<T, CAP> {
    // No elements.
    pub fn new() -> Self
        ensures { result.items ≡ [] }
    {
        CopyList {
            cells: [T::blank(); CAP],
            len: 0,
        }
    }

    // How many elements there are.
    #[inline]
    pub fn len(&self) -> usize
        ensures value { result ≡ length self.now.items }
        ensures fits { result ≤ CAP }
    {
        let all: &[T] = self;
        all.len()
    }

    // One element more, at the end. There must be room.
    #[inline]
    pub fn push(&mut self, element: T)
        requires { length self.old.items < CAP }
        ensures items { self.new.items ≡ self.old.items ++ element ∷ [] }
        ensures len { length self.new.items ≡ length self.old.items + 1 }
    {
        let len = self.len;
        self.cells[len] = element;
        self.len = len + 1;
    }
}

impl<T: Blank, const CAP: usize> DerefSlice for CopyList<T, CAP> {
    type Elem = T;

    ghost deref_gives = { λ l xs. (xs ≡ l.items) × (length xs ≤ CAP) };

    #[inline]
    fn deref(&self) -> &[T] {
        &self.cells[..self.len]
    }
}

impl<'a, T: Blank, const CAP: usize> IntoIterator for &'a CopyList<T, CAP> {
    type Item = &'a T;

    type IntoIter = Iter<'a, T>;

    ghost into_iter_gives = { λ l it. (iter_rest it ≡ l.now.items) × (length (iter_rest it) < 2 ^ 64)
        × EveryRun (iter_steps {A = T}) (λ p. ItemsMapTo p (λ x. x.now) (iter_rest p.from)) };

    fn into_iter(self) -> Iter<'a, T> {
        let items: &[T] = self;
        items.iter()
    }
}
