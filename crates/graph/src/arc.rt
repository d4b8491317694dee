// An arc from the node `tail` to the node `head`.
#[derive(Clone, Copy, Debug, PartialEq, Eq)]
pub struct Arc {
    pub tail: u8,
    pub head: u8,
    pub weight: u32,
}
