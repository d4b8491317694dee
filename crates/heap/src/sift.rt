// The two steps that restore the order of a heap: one element rises or sinks to its place.
// Their loops are `while`s, since they go from child to parent or back and count no index. That of `heapify` counts, since
// each of its steps has to see the elements before.
ghost use Rattle.std.specs.Prelude.{◌≡◌, ℕ, ◌+◌, ◌*◌, ◌<◌, ◌≤◌, length};
ghost use Rattle.heap.specs.Least.{IsHeap, Moved};
ghost use Rattle.heap.specs.Sifted.{LeastChild, Rises, Sinks, Tells};

// Whether the element at `a` comes before the one at `b`.
fn before<T: Ord>(items: &[T], a: usize, b: usize) -> bool
    requires { (a < length items.now) × (b < length items.now) }
    ensures { Tells T.cmp items.now a b result }
{
    items[a].cmp(&items[b]).is_lt()
}

// The child of `parent` among the first `len` that the other does not come before.
fn least_child<T: Ord>(items: &[T], parent: usize, len: usize) -> usize
    requires { (2 * parent + 1 < len) × (len ≤ length items.now) }
    ensures child { (result < len) × (parent * 2 + 1 ≤ result) × (result ≤ parent * 2 + 2) }
    ensures least { LeastChild T.cmp items.now parent result len }
{
    let left = 2 * parent + 1;
    let right = left + 1;
    if right < len && before(items, right, left) {
        return right;
    }
    left
}

// Lets the element at `from` rise until it does not come before its parent.
pub(crate) fn sift_up<T: Ord>(items: &mut [T], from: usize)
    requires { from < length items.old }
    ensures moved { (n : ℕ) → from < n → Moved n items.old items.new }
    ensures rises { Rises T.cmp items.old from items.new }
{
    let mut child = from;
    while child > 0 {
        let parent = (child - 1) / 2;
        if !before(items, child, parent) {
            return;
        }
        items.swap(parent, child);
        child = parent;
    }
}

// Lets the first of `len` elements sink until no child comes before it; those below `len / 2` have a child.
pub(crate) fn sift_down<T: Ord>(items: &mut [T], len: usize)
    requires { len ≤ length items.old }
    ensures moved { (n : ℕ) → len ≤ n → Moved n items.old items.new }
    ensures sinks { Sinks T.cmp items.old len items.new }
{
    let mut parent = 0;
    while parent < len / 2 {
        let child = least_child(items, parent, len);
        if !before(items, child, parent) {
            return;
        }
        items.swap(parent, child);
        parent = child;
    }
}

// Makes the first `len` elements a heap, where the first `from` are one: the others rise to their places in turn.
pub(crate) fn heapify<T: Ord>(items: &mut [T], from: usize, len: usize)
    requires { (from ≤ len) × (len ≤ length items.old) × IsHeap T.cmp items.old from }
    ensures moved { Moved len items.old items.new }
    ensures heap { IsHeap T.cmp items.new len }
{
    for last in from..len {
        sift_up(items, last);
    }
}
