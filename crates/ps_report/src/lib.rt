//! Every line that the program writes, made from an application and what is known of it: the lines of a run, of
//! refusals and of counts, and the text of an image. Each call's contract is the text itself, as `specs/` defines it.
//!
//! `buffer` makes the lines of a run in room that is taken before the first scan, from the parts in `line`; `refusal`
//! and `counts` make short lines, which take no memory; `image` makes the text of an image.
#![tactic(auto)]

mod buffer;
mod counts;
mod image;
mod line;
mod refusal;
mod short;

pub use buffer::LineBuffer;
pub use counts::{check_line, load_line};
pub use image::image_text;
pub use refusal::{refusal_line, rule_name};
pub use short::{LONGEST_SHORT_LINE, ShortLine};
