// A path and a pair of paths as the search answers them.
ghost use Rattle.std.specs.Prelude.{◌≡◌, ◌+◌, ◌<◌, ◌≤◌, [], ◌∷◌, ◌++◌, slice_index, take};

// A path: its links from the first to the last. It visits no node twice, so among 32 nodes it has at most 31.
// It is a plain value, which can be copied, so no `Vec` or `ArrayVec`.
#[derive(Clone, Copy)]
pub struct Path {
    links: [u8; 31],
    len: usize,
    ghost short: { len ≤ 31 },
}

impl Path {
    pub fn links(&self) -> &[u8]
        ensures { result.now ≡ take self.now.len self.now.links }
    {
        &self.links[0..self.len]
    }

    // The first link, of a path that has one.
    pub(crate) fn first(&self) -> u8
        ensures { result ≡ slice_index self.now.links 0 }
    {
        self.links[0]
    }

    // The path of no links.
    pub(crate) fn empty() -> Path
        ensures links { take result.len result.links ≡ [] }
        ensures none { result.len ≡ 0 }
    {
        Path {
            links: [0; 31],
            len: 0,
        }
    }

    // Puts a link behind the others.
    pub(crate) fn push(&mut self, link: u8)
        requires { self.old.len < 31 }
        ensures links { take self.new.len self.new.links ≡ take self.old.len self.old.links ++ link ∷ [] }
        ensures longer { self.new.len ≡ self.old.len + 1 }
    {
        self.links[self.len] = link;
        self.len += 1;
    }
}

// Two paths with no common link, and what they cost together.
#[derive(Clone, Copy)]
pub struct Pair {
    pub cost: u32,
    pub working: Path,
    pub protecting: Path,
}
