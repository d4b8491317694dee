// A binary heap in the first elements of a slice, which gives the least element first.
// `x` comes before `y` where `x.cmp(&y)` is `Less`. The functions of a slice and a length are for entries that lie in a slice
// between calls; they take any slice, keep the order of one that is a heap, and refuse a length beyond it. The methods of `Heap`
// take the same steps and do not call them: a search by methods that did took a tenth longer.
#![tactic(auto)]

ghost use Rattle.std.specs.Prelude.{◌≡◌, ◌+◌, ◌-◌, ◌≤◌, length, take, is_some, is_ok, if◌then◌else◌, ◌==◌};
ghost use Rattle.heap.specs.Least.{IsHeap, IsHeap-prop, Moved};
ghost use Rattle.heap.specs.Calls.{Lowers, Peeks, Pops, Pushes, TakesIn};
ghost use Rattle.heap.specs.Slices.{LowersIn, PeeksIn, PopsIn, PushesIn};

mod sift;

use sift::{heapify, sift_down, sift_up};

// The first of the first `len`, which is the least of a heap; `None` if there is none.
pub fn peek<T: Ord + Copy>(items: &[T], len: usize) -> Option<T>
    ensures { PeeksIn T.cmp items.now len result }
{
    if 0 < len && len <= items.len() {
        Some(items[0])
    } else {
        None
    }
}

// Takes the first out of the first `len`, and leaves it behind the others, at `len - 1`; `None` if there is none.
pub fn pop<T: Ord + Copy>(items: &mut [T], len: usize) -> Option<T>
    ensures { PopsIn T.cmp items.old len result items.new }
{
    if len == 0 || items.len() < len {
        return None;
    }
    let least = items[0];
    items.swap(0, len - 1);
    sift_down(items, len - 1);
    Some(least)
}

// Puts `x` in with the first `len`; false if the slice has no room for it.
pub fn push<T: Ord + Copy>(items: &mut [T], len: usize, x: T) -> bool
    ensures { PushesIn T.cmp items.old len x result items.new }
{
    if items.len() <= len {
        return false;
    }
    items[len] = x;
    sift_up(items, len);
    true
}

// Puts `x` in the place of the element at `i`; false if that is not among the first `len`, or `x` does not come before it.
pub fn lower<T: Ord + Copy>(items: &mut [T], len: usize, i: usize, x: T) -> bool
    ensures { LowersIn T.cmp items.old len i x result items.new }
{
    if len <= i || items.len() < len {
        return false;
    }
    if !x.cmp(&items[i]).is_lt() {
        return false;
    }
    items[i] = x;
    sift_up(items, i);
    true
}

// The slice has no room for so many elements.
#[derive(Clone, Copy, Debug, PartialEq, Eq)]
pub struct Full;

// Why an element is not lowered.
#[derive(Clone, Copy, Debug, PartialEq, Eq)]
pub enum LowerError {
    // The index is not in the heap.
    NoElement,
    // The new element does not come before the one in the heap.
    NotBefore,
}

// The first `len` of `items` are the heap, and the rest is its room. The fields are open: whoever can prove that elements are
// in heap order as they lie may build the heap of them, and none is compared.
#[derive(Drop)]
pub struct Heap<'a, T: Ord> {
    pub items: &'a mut [T],
    pub len: usize,
    pub ghost within: { len ≤ length items.now },
    pub ghost ordered: { IsHeap T.cmp items.now len } by { IsHeap-prop T.cmp items.now len },
}

impl<'a, T: Ord + Copy> Heap<'a, T> {
    // An empty heap, with room for as many elements as `items` has.
    pub fn new(items: &'a mut [T]) -> Heap<'a, T>
        ensures empty { result.len ≡ 0 }
        ensures same { result.items.ghost_name ≡ items.entry.ghost_name }
        ensures kept { result.items.now ≡ items.old }
    {
        Heap { items, len: 0 }
    }

    // A heap of all `items`.
    pub fn of(items: &'a mut [T]) -> Heap<'a, T>
        ensures full { result.len ≡ length items.old }
        ensures same { result.items.ghost_name ≡ items.entry.ghost_name }
        ensures moved { Moved (length items.old) items.old result.items.now }
    {
        let len = items.len();
        heapify(items, 0, len);
        Heap { items, len }
    }

    // How many elements are in the heap.
    pub fn len(&self) -> usize
        ensures { result ≡ self.now.len }
    {
        self.len // and not the room, `self.items.len()`
    }

    pub fn is_empty(&self) -> bool
        ensures { result ≡ (self.now.len == 0) }
    {
        self.len == 0
    }

    // The elements, in the order in which the heap keeps them.
    pub fn as_slice(&self) -> &[T]
        ensures { result.now ≡ take self.now.len self.now.items.now }
    {
        &self.items[..self.len]
    }

    // The least element; `None` if the heap is empty.
    pub fn peek(&self) -> Option<T>
        ensures { Peeks T.cmp self.now.items.now self.now.len result }
    {
        self.as_slice().first().copied()
    }

    // Takes the least element out, and leaves it just behind the others; `None` if the heap is empty.
    pub fn pop(&mut self) -> Option<T>
        ensures same { self.new.items.ghost_name ≡ self.old.items.ghost_name }
        ensures len { self.new.len ≡ (if is_some result then self.old.len - 1 else self.old.len) }
        ensures pops { Pops T.cmp self.old.items.now self.old.len result self.new.items.now }
    {
        let least = self.peek()?;
        let last = self.len - 1;
        let items = &mut *self.items;
        items.swap(0, last);
        sift_down(items, last);
        self.len = last;
        Some(least)
    }

    // Puts `x` in; `Full` if there is no room for it.
    pub fn push(&mut self, x: T) -> Result<(), Full>
        ensures same { self.new.items.ghost_name ≡ self.old.items.ghost_name }
        ensures len { self.new.len ≡ (if is_ok result then self.old.len + 1 else self.old.len) }
        ensures pushes { Pushes T.cmp self.old.items.now self.old.len x result self.new.items.now }
    {
        let last = self.len;
        if self.items.len() <= last {
            return Err(Full);
        }
        let items = &mut *self.items;
        items[last] = x;
        sift_up(items, last);
        self.len = last + 1;
        Ok(())
    }

    // Takes in the next `count` items behind the heap; `Full` if there are fewer.
    pub fn take_in(&mut self, count: usize) -> Result<(), Full>
        ensures same { self.new.items.ghost_name ≡ self.old.items.ghost_name }
        ensures len { self.new.len ≡ (if is_ok result then self.old.len + count else self.old.len) }
        ensures takes { TakesIn self.old.items.now self.old.len count result self.new.items.now }
    {
        if self.items.len() - self.len < count {
            return Err(Full);
        }
        let len = self.len + count;
        heapify(self.items, self.len, len);
        self.len = len;
        Ok(())
    }

    // Puts `x` in the place of the element at `i`, which it has to come before. It is inlined, since a search calls it for most
    // of its arcs.
    #[inline(always)]
    pub fn lower(&mut self, i: usize, x: T) -> Result<(), LowerError>
        ensures same { self.new.items.ghost_name ≡ self.old.items.ghost_name }
        ensures len { self.new.len ≡ self.old.len }
        ensures lowers { Lowers T.cmp self.old.items.now self.old.len i x result self.new.items.now }
    {
        let old = self.as_slice().get(i).ok_or(LowerError::NoElement)?;
        if !x.cmp(old).is_lt() {
            return Err(LowerError::NotBefore);
        }
        let items = &mut *self.items;
        items[i] = x;
        sift_up(items, i);
        Ok(())
    }
}

#[cfg(test)]
mod tests {
    use super::*;

    #[test]
    fn the_least_comes_first(rt: HostRuntime) {
        let mut room = [0; 3];
        let mut heap = Heap::new(&mut room);
        assert!(rt; heap.push(7u8).is_ok() && heap.push(5).is_ok() && heap.push(9).is_ok());
        assert_eq!(rt; heap.push(1), Err(Full));
        assert_eq!(rt; heap.peek(), Some(5));
        assert_eq!(rt; heap.lower(2, 4), Ok(()), "9 becomes 4");
        assert_eq!(rt;
            heap.lower(0, 4),
            Err(LowerError::NotBefore),
            "4 does not come before 4"
        );
        assert_eq!(rt; heap.pop(), Some(4));
        assert_eq!(rt; heap.pop(), Some(5));
        assert_eq!(rt; heap.pop(), Some(7));
        assert_eq!(rt; heap.pop(), None, "empty");
    }

    #[test]
    fn a_length_beyond_the_slice_is_refused(rt: HostRuntime) {
        let mut items = [1u8, 2];
        assert_eq!(rt; peek(&items, 3), None);
        assert_eq!(rt; pop(&mut items, 3), None);
        assert!(rt; !push(&mut items, 3, 0));
        assert!(rt; !lower(&mut items, 3, 0, 0));
        assert!(rt; !lower(&mut items, 1, 1, 0));
        assert_eq!(rt; items, [1, 2]);
    }

    #[test]
    fn a_slice_that_is_no_heap_is_taken_as_it_is(rt: HostRuntime) {
        let mut items = [9u8, 1];
        assert_eq!(rt; peek(&items, 2), Some(9), "the first");
        assert!(rt; !push(&mut items, 2, 0) && !lower(&mut items, 2, 0, 9));
        assert_eq!(rt; items, [9, 1]);
        assert!(rt; lower(&mut items, 2, 0, 5), "9 becomes 5");
        assert_eq!(rt; pop(&mut items, 2), Some(5));
        assert_eq!(rt; items, [1, 5]);
    }

    #[test]
    fn a_count_beyond_the_room_is_refused(rt: HostRuntime) {
        let mut items = [1u8, 2];
        let mut heap = Heap::new(&mut items);
        assert_eq!(rt; heap.take_in(3), Err(Full));
        assert_eq!(rt; heap.peek(), None);
        assert_eq!(rt; heap.pop(), None);
        assert_eq!(rt; heap.lower(0, 0), Err(LowerError::NoElement));
        assert_eq!(rt; heap.take_in(1), Ok(()));
        assert_eq!(rt; heap.lower(1, 0), Err(LowerError::NoElement));
        assert_eq!(rt; heap.take_in(1), Ok(()));
        assert_eq!(rt; heap.push(0), Err(Full));
        assert_eq!(rt; items, [1, 2]);
    }

    #[test]
    fn the_first_items_become_a_heap(rt: HostRuntime) {
        let mut items = [9u8, 5, 7, 1];
        let mut heap = Heap::new(&mut items);
        assert_eq!(rt; heap.take_in(3), Ok(()));
        assert_eq!(rt; heap.as_slice(), [5, 9, 7].as_slice());
        assert_eq!(rt; heap.take_in(1), Ok(()));
        assert_eq!(rt; heap.pop(), Some(1));
        assert_eq!(rt; heap.len(), 3);
        assert_eq!(rt; items, [5, 9, 7, 1]);
    }
}
