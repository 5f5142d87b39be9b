// A list of at most N entries that lie in the value itself, in an array. It never allocates. The library's
// `ArrayVec` is no `Copy`: a list is copied as a value is, and its copies must not be able to fail.
ghost use Rattle.std.specs.Prelude.{◌≡◌, ◌≤◌, [], ◌∷◌, ◌++◌, length, take, nat_lt};
ghost use Rattle.std.specs.Option.{option_to_list};
ghost use Rattle.list.specs.Entries.{last, added};

use std::marker::Model;

#[derive(Clone, Copy)]
pub struct Fixed<T, const N: usize> {
    slots: [T; N],
    len: usize,
}

impl<T, const N: usize> Model for Fixed<T, N> {
    ghost use Rattle.std.specs.Prelude.{◌≡◌, ◌≤◌, ◌++◌, length, take, drop};
    ghost use Rattle.std.proofs.Common.{arith, take-append-drop, length-take-le};
    ghost use Rattle.list.specs.Fixed.{Held, held_code};

    ghost Value = { Held T };

    ghost coded = { held_code T.code };

    ghost view = { λ f. record { items = take f.len f.slots; spare = drop f.len f.slots } };

    ghost invariant = { λ f. (f.len ≤ N) × (length f.slots ≡ N) };

    ghost inverse = { λ h. record { slots = h.items ++ h.spare; len = length h.items } };

    ghost inverse_ok = { λ f h i. record {
      slots = take-append-drop f.len f.slots i;
      len = length-take-le f.len f.slots (omega (arith, h.0, h.1)) i;
    } };
}

impl<T: Copy + Default, const N: usize> Fixed<T, N> {
    // An empty list.
    pub fn new() -> Self
        ensures { result.items ≡ [] }
    {
        Fixed {
            slots: [T::default(); N],
            len: 0,
        }
    }
}

impl<T: Copy, const N: usize> Fixed<T, N> {
    // The first entries of an array, at most all of them. Where a large table is filled and given back, it is an
    // array until it is full: a list that is made first is copied once more with each call that hands it on.
    pub fn filled(slots: [T; N], len: usize) -> Self
        ensures { result.items ≡ take len slots }
    {
        Fixed {
            slots,
            len: len.min(N),
        }
    }

    pub fn as_slice(&self) -> &[T]
        ensures value { result.now ≡ self.now.items }
        ensures fits { length result.now ≤ N }
    {
        let slots: &[T] = &self.slots;
        &slots[..self.len]
    }

    // Adds an entry at the end, unless the list is full; whether it was added. `Log::add` does so in slots that
    // are lent, whose number is known only when it runs.
    pub fn push(&mut self, x: T) -> bool
        ensures said { result ≡ nat_lt (length self.old.items) N }
        ensures list { self.new.items ≡ added self.old.items N x }
    {
        if self.len >= N {
            return false;
        }
        self.slots[self.len] = x;
        self.len += 1;
        true
    }

    // The last entry, where there is one.
    pub fn last(&self) -> Option<T>
        ensures { result ≡ last self.now.items }
    {
        self.as_slice().last().copied()
    }

    // Takes the last entry off, where there is one.
    pub fn pop(&mut self) -> Option<T>
        ensures said { result ≡ last self.old.items }
        ensures list { self.old.items ≡ self.new.items ++ option_to_list result }
    {
        let last = self.last()?;
        self.len -= 1;
        Some(last)
    }

    // Takes all entries off.
    pub fn clear(&mut self)
        ensures { self.new.items ≡ [] }
    {
        self.len = 0;
    }

    pub fn len(&self) -> usize
        ensures { result ≡ length self.now.items }
    {
        self.as_slice().len()
    }
}

impl<T: Copy + Default, const N: usize> Fixed<T, N> {
    // The first N of the entries.
    pub fn of(entries: &[T]) -> Self
        ensures { result.items ≡ take N entries.now }
    {
        let mut slots = [T::default(); N];
        let len = entries.len().min(N);
        slots[..len].copy_from_slice(&entries[..len]);
        Fixed { slots, len }
    }
}
