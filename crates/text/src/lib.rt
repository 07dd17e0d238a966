//! Texts: their signs, and the circuits that they say.
#![tactic(auto)]

mod cut;
mod program;
mod reader;
mod row;
mod statement;
mod token;

pub use cut::{spells_one, tokenize};
pub use program::{Circuit, calls_fall, read, refuses_one, says_one, says_or_refuses};
pub use reader::{MOST_SIGNS, Reader, read_signs};
pub use statement::{Part, Place};
pub use token::{Class, Token, class_of};
