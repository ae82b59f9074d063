//! What the formats' texts are made of: lines, words and numbers.
#![tactic(auto)]

mod cut;
mod decimal;
pub mod laws;
mod lines;
mod token;
mod writer;

pub use cut::words;
pub use decimal::number;
pub use lines::Lines;
pub use token::{BadByte, Token, first_word, tokens};
pub use writer::Writer;
