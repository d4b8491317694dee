// A telecommunication network, and how it is read from words of 32 bits and written to them.
#![tactic(auto)]

mod fault;
mod kind;
mod laws;
mod limits;
mod link;
mod network;
mod reader;
#[cfg(test)]
mod tests;
mod word;
mod writer;

pub use fault::{Fault, LinksFault};
pub use laws::format_stands;
pub use limits::{MOST_LINKS, MOST_NODES};
pub use link::Link;
pub use network::Network;
pub use reader::{extent, read};
