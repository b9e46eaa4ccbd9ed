// Which seat was dirty where a fault of another one was refused.

use crate::faults::tell_before;
use crate::lines::{Sought, last_before, word_at, word_from};
use crate::telling::Telling;
use ps_base::{Bytes, Memory};
use ps_text::line_at;
use std::alloc::Global;

// That a seat is dirty, by the line of the fault that struck it, and that line's number.
fn tell_struck(telling: &mut Telling, line: &[u8], number: u32) {
    telling.add(b"seat ");
    telling.add(word_from(line, 0).unwrap_or(&[]));
    telling.add(b" is dirty: struck in scan ");
    telling.add(word_at(line, 1).unwrap_or(&[]));
    telling.add(b" (line ");
    telling.add_digits(number);
    telling.add(b"), and not outvoted and rebuilt since");
}

/// Which of the seats that are still dirty, named by a letter each, was struck last before the line of this number of a
/// fault file, and in which scan; where none is, the fault before that line.
pub fn dirty_told(alloc: Global, text: &[u8], number: u32, seats: &[u8]) -> Result<Bytes, Memory> {
    let mut telling = Telling::new(alloc);
    let last = last_before(text, number, Sought::Struck(seats));
    if last > 0 {
        tell_struck(&mut telling, line_at(text, last), last);
    } else {
        tell_before(&mut telling, text, number);
    }
    telling.finish()
}
