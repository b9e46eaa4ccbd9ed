// Where the bytes of a fault pass the end of a region.

use crate::lines::{narrow, word_from};
use crate::telling::Telling;
use ps_base::{Bytes, Memory};
use ps_text::line_at;
use std::alloc::Global;

/// The lengths in bytes of the regions of a channel, which is named by its letter.
#[derive(Clone, Copy)]
pub struct RegionSizes {
    /// The channel: `b'A'`, `b'B'` or `b'C'`.
    pub channel: u8,
    /// Of its code.
    pub code: u32,
    /// Of its memory.
    pub memory: u32,
}

// What is said of so many bytes from an offset on in a region of this length.
fn tell_past(
    telling: &mut Telling,
    channel: u8,
    region: &[u8],
    length: u32,
    offset: &[u8],
    count: usize,
) {
    telling.add(b"the ");
    telling.add(region);
    telling.add(b" of ");
    telling.add(&[channel]);
    telling.add(b" has ");
    telling.add_digits(length);
    telling.add(b" bytes, from offset 0 to ");
    telling.add_digits(length.saturating_sub(1));
    telling.add(b"; bytes of the fault: ");
    telling.add_digits(narrow(count));
    telling.say(b", from offset ", offset, b"");
}

// How long a region of these channels is, if the channel is one of them.
fn length_of(channels: &[RegionSizes], channel: u8, region: &[u8]) -> Option<u32> {
    for sizes in channels {
        if sizes.channel == channel {
            return Some(if region == b"code".as_slice() {
                sizes.code
            } else {
                sizes.memory
            });
        }
    }
    None
}

// What is said of the fault of a line; nothing where the line names none of these channels.
fn tell_line(telling: &mut Telling, line: &[u8], channels: &[RegionSizes]) {
    let (Some([channel]), Some(region), Some(offset), Some(bytes)) = (
        word_from(line, 0),
        word_from(line, 1),
        word_from(line, 2),
        word_from(line, 3),
    ) else {
        return;
    };
    if let Some(length) = length_of(channels, *channel, region) {
        tell_past(telling, *channel, region, length, offset, bytes.len() / 2);
    }
}

/// How long the region is whose end the fault of this line passes, and how many bytes it has from which offset on, by
/// the lengths of the regions of the channels; empty where the line names none of them.
pub fn past_told(
    alloc: Global,
    text: &[u8],
    number: u32,
    channels: &[RegionSizes],
) -> Result<Bytes, Memory> {
    let mut telling = Telling::new(alloc);
    tell_line(&mut telling, line_at(text, number), channels);
    telling.finish()
}
