// Reads a network from words: the header first, then two words for each link.
ghost use Rattle.std.specs.Prelude.{◌≡◌, ◌+◌, ◌<◌, ◌≤◌, length, MatchResult};
ghost use Rattle.network.specs.Format.{extent_of, network_words};
ghost use Rattle.network.specs.Laws.{Accepts, ReadsAs, RefusedFor};
ghost use Rattle.network.specs.Limits.{Sound};
ghost use Rattle.network.specs.Networks.{link_list, node_count};
ghost use Rattle.network.specs.Reading.{GivesLink, GivesNodes, link_fault, past, upcoming, words_of};
ghost use Rattle.network.specs.Refusals.{CleanBelow, Refuses};

use crate::kind::Kind;
use crate::limits::may_have;
use crate::word::{Word, field};
use crate::{Fault, Link, Network};
use std::alloc::Global;

// The words, and the place of the next one to read. It is no iterator of words: a fault names the place.
#[derive(Clone, Copy)]
struct Reader<'a> {
    words: &'a [u32],
    place: usize,
}

impl Reader<'_> {
    // The next word, which there is.
    fn word(&mut self) -> Word
        requires { self.old.place < length (words_of self.old) }
        ensures next { self.new ≡ past self.old 1 }
        ensures value { result ≡ upcoming self.old }
    {
        let place = self.place;
        self.place += 1;
        Word {
            place,
            bits: self.words[place],
        }
    }

    // A link, by the next two words.
    fn link(&mut self, nodes: u8) -> Result<Link, Fault>
        requires { self.old.place + 2 ≤ length (words_of self.old) }
        ensures { MatchResult result (λ x. GivesLink nodes (words_of self.old) self.old.place x × (self.new ≡ past self.old 2)) (λ f. link_fault nodes (words_of self.old) self.old.place ≡ Some f) }
    {
        let (tail, head, cost) = self.word().ends(nodes)?;
        let (capacity, ceiling) = self.word().limits()?;
        Ok(Link {
            tail,
            head,
            cost,
            capacity,
            ceiling,
        })
    }

    // The number of nodes, by the header, after which there are two words for each of its links.
    fn header(&mut self) -> Result<u8, Fault>
        requires { self.old.place ≡ 0 }
        ensures { MatchResult result (λ n. GivesNodes (words_of self.old) n × (self.new ≡ past self.old 1)) (Refuses (words_of self.old)) }
    {
        let words = self.words.len();
        if words == 0 {
            return Err(Fault::NoWord);
        }
        let word = self.word();
        let nodes = field(word.bits, 27, 16) as usize;
        let links = field(word.bits, 15, 0) as usize;
        if !Kind::Header.is_of(word.bits) || !may_have(nodes, links) {
            return Err(Fault::Header);
        }
        if words != 1 + 2 * links {
            return Err(Fault::Length { words });
        }
        Ok(nodes as u8)
    }

    // Sees that no link word has a fault. The walk of `collect` is its own: one with a closure would promise what both do,
    // in more lines than it saves. Both go by the reader's own place, and keep no other index.
    fn check(&mut self, nodes: u8) -> Result<(), Fault>
        requires start { self.old.place ≡ 1 }
        requires header { GivesNodes (words_of self.old) nodes }
        ensures { MatchResult result (λ _. CleanBelow (words_of self.old) (length (words_of self.old))) (Refuses (words_of self.old)) }
    {
        while self.place < self.words.len() {
            self.link(nodes)?;
        }
        Ok(())
    }

    // The links. None of their words has a fault.
    fn collect(&mut self, nodes: u8, heap: Global) -> Result<Vec<Link>, Fault>
        requires start { self.old.place ≡ 1 }
        requires header { GivesNodes (words_of self.old) nodes }
        requires clean { CleanBelow (words_of self.old) (length (words_of self.old)) }
        ensures { MatchResult result (λ v. Sound nodes v.items × (words_of self.old ≡ network_words nodes v.items)) (Refuses (words_of self.old)) }
    {
        let mut links = Vec::new(heap);
        while self.place < self.words.len() {
            let link = self.link(nodes)?;
            links.push(link)?;
        }
        Ok(links)
    }

    // The whole network. All words are checked before memory is asked for.
    fn network(&mut self, heap: Global) -> Result<Network, Fault>
        requires { self.old.place ≡ 0 }
        ensures { MatchResult result (λ net. Accepts (words_of self.old) (node_count net) (link_list net)) (Refuses (words_of self.old)) }
    {
        let nodes = self.header()?;
        let mut ahead = *self;
        ahead.check(nodes)?;
        let links = self.collect(nodes, heap)?;
        Ok(Network::new(nodes, links, heap)?)
    }
}

// The network of which these are the words, or their first fault. No other network has these words, and they have no
// other fault.
pub fn read(words: &[u32], heap: Global) -> Result<Network, Fault>
    ensures answer { MatchResult result (λ net. words.now ≡ network_words (node_count net) (link_list net)) (Refuses words.now) }
    ensures only { MatchResult result (λ net. ReadsAs words.now (node_count net) (link_list net)) (RefusedFor words.now) }
{
    let mut reader = Reader { words, place: 0 };
    reader.network(heap)
}

// How many words at the front are the network's, by the header.
pub fn extent(words: &[u32]) -> usize
    ensures { result ≡ extent_of words.now }
{
    match words {
        [] => 0,
        [header, ..] => words.len().min(1 + 2 * field(*header, 15, 0) as usize),
    }
}
