//! Texts as people see them: what of a text is shown in a message, how values stand in a page, and columns of a line as
//! an editor counts them.
//!
//! Quoted in a message:
//!
//! - `shown`: bytes that a user wrote, as a terminal may take them. `places`: places and numbers.
//! - `quoted`: the line of a place, a window on it, and the caret. `words`: the words of a line.
//! - `further`: a second line of the text that a refusal rests on. `also`: the lines of further refusals.
//!
//! In a page:
//!
//! - `escaping`: how a value is written in its texts and attributes, so that no byte of it begins or ends anything
//!   else.
//! - `lanes`: values in scans side by side, and the line of a signal.
//! - `value_laws`: what holds of every value that is written, and of values side by side.
//!
//! In an editor:
//!
//! - `columns`: columns in bytes and in UTF-16 code units, which the Language Server Protocol counts, for any bytes.
//! - `positions`: the places of a text as positions of an editor, and back.
//! - `column_laws`: columns in bytes and in code units are inverse of each other.
#![tactic(auto)]

mod also;
pub mod column_laws;
mod columns;
mod escaping;
mod further;
mod lanes;
mod places;
mod positions;
mod quoted;
mod shown;
pub mod value_laws;
mod words;

pub use also::also_lines;
pub use columns::{byte_offset, utf16_length};
pub use escaping::{add_attribute, add_escaped};
pub use further::{further_on, line_before};
pub use lanes::{Span, add_start, add_step, line_of, merged};
pub use places::{MOST_OF_FILE, add_number, add_place};
pub use positions::{Position, Range, place_at, position_of, range_from};
pub use quoted::{add_quoted, cut_at, line_at, name_of};
pub use shown::{add_first, add_last};
pub use words::{
    before_last_word, first_word, is_bare, is_of_word, last_word, without_blanks,
    without_front_blanks,
};
