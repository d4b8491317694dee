// A path in the making.
ghost use Rattle.std.specs.Prelude.{◌≡◌, ◌<◌};
ghost use Rattle.enumeration.specs.Walks.{begun, followed, leads_on};

use network::{Link, MOST_LINKS, MOST_NODES};

// Its flags are by the numbers of links and nodes, in arrays: it is lent, and copied once for each link that it follows.
#[derive(Clone, Copy)]
pub(crate) struct Trail {
    // The links that no path has taken.
    pub(crate) free: [bool; MOST_LINKS],
    // The nodes that this path has visited.
    seen: [bool; MOST_NODES],
    // The last of them.
    pub(crate) node: u8,
}

impl Trail {
    // A trail that has visited only `node`.
    pub(crate) fn begin(free: [bool; MOST_LINKS], node: u8) -> Trail
        requires { node < 32 }
        ensures { result ≡ begun free node }
    {
        let mut seen = [false; MOST_NODES];
        seen[usize::from(node)] = true;
        Trail { free, seen, node }
    }

    // Whether `link`, number `e`, leads on: it is free and starts at the last node, and its head is not seen. With `&`, so that
    // it is one branch and not three, each as good as random.
    pub(crate) fn leads_on(&self, e: usize, link: Link) -> bool
        requires { (e < 128) × (link.head < 32) }
        ensures { result ≡ leads_on self.now e link.tail link.head }
    {
        self.free[e] & (link.tail == self.node) & !self.seen[usize::from(link.head)]
    }

    // Follows `link`, number `e`.
    pub(crate) fn follow(&mut self, e: usize, link: Link)
        requires { (e < 128) × (link.head < 32) }
        ensures { self.new ≡ followed self.old e link.head }
    {
        self.free[e] = false;
        self.seen[usize::from(link.head)] = true;
        self.node = link.head;
    }
}
