//! Lines of a text, the words of a line, and the numbers that words spell: what files of networks and scripts of lives are read by. The
//! lines that users type, which end with a CR, and where a mark parts a text. And how any bytes are shown in a line.
//!
//! Only `words_of` and `shown_text` take memory.
#![tactic(auto)]

mod lines;
mod marks;
mod numbers;
mod shown;
mod words;

pub use lines::{MAX_LINES, first_line, is_skipped, is_text};
pub use marks::place_of;
pub use numbers::{is_digit, is_number, number_of};
pub use shown::shown_text;
pub use words::{after_space, first_word, past_word, words_of};
