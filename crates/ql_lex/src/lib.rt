//! The tokens of a script: what each piece of the text is, where it stands, and what a literal means.
#![tactic(auto)]

mod bytes;
mod comments;
mod escapes;
mod lexer;
mod marks;
mod meaning;
mod numbers;
mod pieces;
mod runs;
mod strings;
mod token;
mod words;

pub use lexer::tokens;
pub use marks::Mark;
pub use meaning::{number_of, text_of};
pub use token::{LexFault, Token, TokenKind, Tokens};
pub use words::Word;
