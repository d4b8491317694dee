#![tactic(auto)]

mod explore;
mod extract;
mod flow;
mod key;
mod path;
mod residual;
mod rounds;
mod search;
mod state;
mod task;
mod workspace;

pub use key::{NodeKey, Reach};
pub use path::{Pair, Path};
pub use search::{SearchFault, find_pair};
pub use workspace::Workspace;
