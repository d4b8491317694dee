// What a search in the largest network works in.
ghost use Rattle.routing.specs.Answer.{no_entry};
ghost use Rattle.std.specs.Prelude.{◌≡◌, replicate};

use crate::key::NodeKey;
use network::{MOST_LINKS, MOST_NODES};

const MOST_WORDS: usize = 6 * MOST_NODES + 2 * MOST_LINKS;

// Enough for a search in any network: 6 words a node and 2 a link, and an entry a node.
#[derive(Drop)]
pub struct Workspace {
    pub words: [u32; MOST_WORDS],
    pub entries: [NodeKey; MOST_NODES],
}

impl Workspace {
    // All words 0, and all entries "not reached, node 0", as a search leaves them.
    pub fn new() -> Workspace
        ensures words { result.words ≡ replicate 448 0 }
        ensures entries { result.entries ≡ replicate 32 no_entry }
    {
        Workspace {
            words: [0; MOST_WORDS],
            entries: [NodeKey::default(); MOST_NODES],
        }
    }
}
