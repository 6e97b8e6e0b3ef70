//! The tokens of lines of a script, and their places.
#![tactic(auto)]

mod laws;
mod lexer;
mod quoted;
mod token;

pub use laws::{pieces_are_exact, words_are_names};
pub use lexer::{is_blank, tokens};
pub use token::Token;
