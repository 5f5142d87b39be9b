// Lists of entries that never allocate, for every kind of entry. `Log` lies over a slice that its user
// lends: an entry is added at the end while there is room, the entries are read by their index, and the
// list is cut back to an earlier length; each of these says whether it was done, and where it was not, the
// list is as it was. `Journal` is what a run asks of such a list, so that it can hold one by value whatever
// the list is made of. `Fixed` holds its entries itself, at most N of them, and is copied as a value is: a
// table, or a stack whose top is the last entry.
#![tactic(auto)]

pub mod fixed;
pub mod slots;

ghost use Rattle.std.specs.Prelude.{◌≡◌, ℕ, List, [], length, take, nat_le, nat_lt};
ghost use Rattle.std.specs.List.{slice_get};
ghost use Rattle.list.specs.Entries.{added, cut_back};

// A list of entries with room for so many.
pub trait Journal<T> {
    ghost entries: { Self → List T };

    ghost room: { Self → ℕ };

    // How many entries there are.
    fn count(&self) -> usize
        ensures { result ≡ length (entries self.now) };

    // How many entries there can be.
    fn capacity(&self) -> usize
        ensures { result ≡ room self.now };

    // The entry at an index from 0, where there is one.
    fn get(&self, i: usize) -> Option<T>
        ensures { result ≡ slice_get (entries self.now) i };

    // Adds an entry at the end, unless the list is full.
    fn add(&mut self, x: T) -> bool
        ensures said { result ≡ nat_lt (length (entries self.old)) (room self.old) }
        ensures list { entries self.new ≡ added (entries self.old) (room self.old) x }
        ensures kept { room self.new ≡ room self.old };

    // Keeps the first n entries, unless there are fewer.
    fn cut(&mut self, n: usize) -> bool
        ensures said { result ≡ nat_le n (length (entries self.old)) }
        ensures list { entries self.new ≡ cut_back (entries self.old) n }
        ensures kept { room self.new ≡ room self.old };
}

// The first `len` of the slots that are lent: a length beside a slice, since its user has the room and
// takes it back.
#[derive(Drop)]
pub struct Log<'a, T> {
    slots: &'a mut [T],
    len: usize,
}

impl<'a, T: Copy> Log<'a, T> {
    // An empty list with as much room as the slice.
    pub fn new(slots: &'a mut [T]) -> Log<'a, T>
        ensures list { take result.len result.slots.now ≡ [] }
        ensures room { length result.slots.now ≡ length slots.old }
    {
        Log { slots, len: 0 }
    }
}

impl<'a, T: Copy> Journal<T> for Log<'a, T> {
    ghost entries = { λ e. take e.len e.slots.now };

    ghost room = { λ e. length e.slots.now };

    fn count(&self) -> usize {
        self.len.min(self.slots.len())
    }

    fn capacity(&self) -> usize {
        self.slots.len()
    }

    fn get(&self, i: usize) -> Option<T> {
        let slots: &[T] = self.slots;
        slots[..self.count()].get(i).copied()
    }

    fn add(&mut self, x: T) -> bool {
        if self.len >= self.slots.len() {
            return false;
        }
        self.slots[self.len] = x;
        self.len += 1;
        true
    }

    fn cut(&mut self, n: usize) -> bool {
        if n > self.count() {
            return false;
        }
        self.len = n;
        true
    }
}
