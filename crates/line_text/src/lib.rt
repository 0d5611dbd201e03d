//! Texts of lines: rows and fields, whole numbers in fields, and sections of rows of one kind.
#![tactic(auto)]

mod lines;
mod names;
mod numbers;
mod owned;
mod parts;
mod readings;
mod spans;
mod wide;
mod writing;

pub use lines::{Line, next_line, section, text_end};
pub use names::{counts, name};
pub use numbers::{count, end, whole, whole_number, word};
pub use owned::{OwnedLine, owned_section};
pub use parts::{next_field, next_row};
pub use readings::Reading;
pub use spans::Span;
pub use wide::wide_whole;
pub use writing::{put_count, put_field, put_whole};
