// How far a node is from the source: a distance, or not reached, which ranks after every distance.
// It is no `Option`, where `None` would come first.
#[derive(Clone, Copy, Debug, Default, PartialEq, Eq, PartialOrd, Ord)]
pub enum Reach {
    At(u32),
    #[default]
    NotReached,
}

// An entry of the heap: nearer nodes come first, and of two nodes equally far the lower one.
#[derive(Clone, Copy, Debug, Default, PartialEq, Eq, PartialOrd, Ord)]
pub struct NodeKey {
    pub reach: Reach,
    pub node: u8,
}
