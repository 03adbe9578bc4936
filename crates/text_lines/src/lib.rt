// Texts of lines: the next line of a stream, its fields and numbers, and the first line that may not stand there.
#![tactic(auto)]

mod fault;
mod fields;
mod form;
mod line_buffer;
mod lines;
mod number;
mod words;

pub use fault::{LineCode, LineError, ReadError, TextFault};
pub use fields::{first_field, five_fields, one_field, three_or_four_fields, two_fields};
pub use form::{LineForm, read_items, read_line};
pub use line_buffer::{LINE_ROOM, LineBuffer};
pub use lines::{LONGEST_LINE, Lines};
pub use number::{MOST_AMOUNT, integer_up_to, is_canonical, is_canonical_signed, number_up_to};
pub use words::{
    CountLine, FixedLine, integer_from, number_from, read_amount, read_count, read_section,
    read_words,
};
