// The line of a value change.

ghost use Rattle.std.specs.Prelude.{◌≡◌, ◌+◌, ◌*◌, ◌%◌, ◌≤◌, ◌<◌, ◌++◌, length, take, flat_map};
ghost use Rattle.ps_bench_waves.specs.declared.identifier.TheConstants.{MOST_WIRES};
ghost use Rattle.ps_bench_waves.specs.declared.value.TheConstants.{LONGEST_WORDS};
ghost use Rattle.ps_bench_waves.specs.Values.{held, shortened};
ghost use Rattle.ps_bench_waves.specs.declared.change.TheConstants.{CHANGE_ROOM};
ghost use Rattle.ps_bench_waves.specs.Text.{bits, shown_byte, value_text, vector_text, change_text};

use crate::room::{put, put_byte};
use crate::{Identifier, LONGEST_WORDS, Value, shortened};

/// The most bytes of a change: `s`, words of which each byte takes up to four, a blank, an identifier and a line feed.
pub(crate) const CHANGE_ROOM: usize = 6 + 4 * LONGEST_WORDS;

// The lowest binary digit of a number.
fn digit(number: u64) -> u8
    ensures { result ≡ 48 + number % 2 }
{
    b'0' + (number % 2) as u8
}

// The eight lowest binary digits of a number, the highest first.
fn octet(number: u64) -> [u8; 8]
    ensures { result ≡ bits 8 number }
{
    [
        digit(number / 128),
        digit(number / 64),
        digit(number / 32),
        digit(number / 16),
        digit(number / 8),
        digit(number / 4),
        digit(number / 2),
        digit(number),
    ]
}

// Puts so many times eight binary digits of a number, the highest first.
fn put_bits(text: &mut [u8], at: usize, octets: usize, number: u64) -> usize
    requires { at + 8 * octets ≤ length text.old }
    ensures bytes { take result text.new ≡ take at text.old ++ bits (8 * octets) number }
    ensures end { result ≡ at + 8 * octets }
    ensures len { length text.new ≡ length text.old }
{
    if octets == 0 {
        return at;
    }
    let end = put_bits(text, at, octets - 1, number / 256);
    put(text, end, &octet(number))
}

// Puts a byte of words: a blank as `\x20`.
fn put_shown(text: &mut [u8], at: usize, byte: u8) -> usize
    requires { at + 4 ≤ length text.old }
    ensures bytes { take result text.new ≡ take at text.old ++ shown_byte byte }
    ensures end { result ≤ at + 4 }
    ensures len { length text.new ≡ length text.old }
{
    if byte == b' ' {
        put(text, at, b"\\x20")
    } else {
        put_byte(text, at, byte)
    }
}

// Puts words.
fn put_words(text: &mut [u8], at: usize, words: &[u8]) -> usize
    requires { at + 4 * length words.now ≤ length text.old }
    ensures bytes { take result text.new ≡ take at text.old ++ flat_map shown_byte words.now }
    ensures end { result ≤ at + 4 * length words.now }
    ensures len { length text.new ≡ length text.old }
{
    let mut end = at;
    for byte in words {
        end = put_shown(text, end, *byte);
    }
    end
}

// Puts what stands before an identifier.
fn put_value(text: &mut [u8], at: usize, value: Value) -> usize
    requires { at + (2 + 4 * LONGEST_WORDS) ≤ length text.old }
    ensures bytes { take result text.new ≡ take at text.old ++ value_text (held value) }
    ensures end { result ≤ at + (2 + 4 * LONGEST_WORDS) }
    ensures len { length text.new ≡ length text.old }
{
    match value {
        Value::Bit(value) => put_byte(text, at, if value { b'1' } else { b'0' }),
        Value::Code(code) => put_vector(text, at, 2, u64::from(code)),
        Value::Count(count) => put_vector(text, at, 8, count),
        Value::Words(words) => {
            let at = put_byte(text, at, b's');
            let at = put_words(text, at, shortened(words));
            put_byte(text, at, b' ')
        }
    }
}

// Puts a number of so many times eight bits.
fn put_vector(text: &mut [u8], at: usize, octets: usize, number: u64) -> usize
    requires room { at + (2 + 8 * octets) ≤ length text.old }
    ensures bytes { take result text.new ≡ take at text.old ++ vector_text (8 * octets) number }
    ensures end { result ≡ at + (2 + 8 * octets) }
    ensures len { length text.new ≡ length text.old }
{
    let at = put_byte(text, at, b'b');
    let at = put_bits(text, at, octets, number);
    put_byte(text, at, b' ')
}

// Puts the line of a change: the wire with this number has this value.
pub(crate) fn put_change(text: &mut [u8], at: usize, wire: usize, value: Value) -> usize
    requires wire { wire < MOST_WIRES }
    requires room { at + CHANGE_ROOM ≤ length text.old }
    ensures bytes { take result text.new ≡ take at text.old ++ change_text wire (held value) }
    ensures end { result ≤ at + CHANGE_ROOM }
    ensures len { length text.new ≡ length text.old }
{
    let at = put_value(text, at, value);
    let at = put(text, at, Identifier::of(wire).as_slice());
    put_byte(text, at, b'\n')
}
