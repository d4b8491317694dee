// Writes a network to words: the header first, then two words for each link.
ghost use Rattle.std.specs.Prelude.{◌≡◌, ◌<◌, ◌≤◌, take, IfOk};
ghost use Rattle.network.specs.Format.{ends_word, header_word, limits_word};
ghost use Rattle.network.specs.Laws.{ReadsAs};
ghost use Rattle.network.specs.Networks.{link_list, node_count};
ghost use Rattle.network.specs.Writing.{Written};

use crate::kind::Kind;
use crate::{Fault, Link, Network};

// The header: nodes in bits 27–16, links in 15–0.
fn header_word(nodes: u8, links: usize) -> u32
    requires { links ≤ 128 }
    ensures { result ≡ header_word nodes links }
{
    Kind::Header.high_bits() + (u32::from(nodes) << 16) + links as u32
}

// A link's ends: tail in bits 27–22, head in 21–16, cost in 15–0.
fn ends_word(link: Link) -> u32
    requires { (link.tail < 64) × (link.head < 64) }
    ensures { result ≡ ends_word link }
{
    Kind::Ends.high_bits()
        + (u32::from(link.tail) << 22)
        + (u32::from(link.head) << 16)
        + u32::from(link.cost)
}

// Its limits: capacity in bits 27–12, ceiling in 11–5, zero in 4–0.
fn limits_word(link: Link) -> u32
    requires { link.ceiling ≤ 64 }
    ensures { result ≡ limits_word link }
{
    Kind::Limits.high_bits() + (u32::from(link.capacity) << 12) + (u32::from(link.ceiling) << 5)
}

impl Network {
    // Writes the network to the front of `words`, and says how many they are. Where there is no room for all, it
    // writes none.
    pub fn write(&self, words: &mut [u32]) -> Result<usize, Fault>
        ensures answer { Written (node_count self.now) (link_list self.now) words.old result words.new }
        ensures back { IfOk result (λ count. ReadsAs (take count words.new) (node_count self.now) (link_list self.now)) }
    {
        let links = self.links();
        let count = 1 + 2 * links.len();
        if words.len() < count {
            return Err(Fault::Length { words: words.len() });
        }
        words[0] = header_word(self.nodes(), links.len());
        // By index: of a slice that was lent in chunks, a proof knows the length alone.
        for (e, link) in links.iter().enumerate() {
            words[2 * e + 1] = ends_word(*link);
            words[2 * e + 2] = limits_word(*link);
        }
        Ok(count)
    }
}
