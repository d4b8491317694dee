#![tactic(auto)]

mod log;
mod order;
mod quotes;
mod refusal;
mod runs;
mod words;

pub use order::{OrderReader, Reserve, Unreadable};
pub use quotes::quote;
pub use refusal::Refusal;
pub use runs::run;
pub use words::words_of;
