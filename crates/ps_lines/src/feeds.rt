// The search for a line feed, sixteen bytes at a time.

ghost use Rattle.std.specs.Prelude.{◌≡◌, ◌≤◌, ◌<◌, ◌+◌, ◌==◌, length, slice_index, take, drop, not, IfSome, IfNone};
ghost use Rattle.std.specs.List.{prefix_len};
ghost use Rattle.ps_lines.specs.Lines.{HasNoLineFeed};

use std::simd::prelude::*;

// How many bytes are looked at at once.
const LANES: usize = 16;

/// The place of the first line feed, and None where there is none.
pub fn line_feed(bytes: &[u8]) -> Option<usize>
    ensures found { IfSome result (λ n. (n < length bytes.now) × (slice_index bytes.now n ≡ 10) × HasNoLineFeed (take n bytes.now)) }
    ensures none { IfNone result (HasNoLineFeed bytes.now) }
{
    let mut from = 0;
    'lanes: while bytes.len() - from >= LANES {
        let n = before_feed(bytes, from) as usize;
        if n < LANES {
            return Some(from + n);
        }
        from += LANES;
    }
    line_feed_behind(bytes, from)
}

// How many of the sixteen bytes from a place on stand before the first line feed there: all, where there is none.
fn before_feed(bytes: &[u8], from: usize) -> u32
    requires { from + 16 ≤ length bytes.now }
    ensures { result ≡ prefix_len (λ b. not (b == 10)) (take 16 (drop from bytes.now)) }
{
    let feeds = u8x16::from_slice(&bytes[from..])
        .simd_eq(u8x16::splat(b'\n'))
        .to_bitmask();
    if feeds == 0 {
        16
    } else {
        feeds.trailing_zeros()
    }
}

// The place of the first line feed, where there is none before a place.
fn line_feed_behind(bytes: &[u8], from: usize) -> Option<usize>
    requires within { from ≤ length bytes.now }
    requires none_before { HasNoLineFeed (take from bytes.now) }
    ensures found { IfSome result (λ n. (n < length bytes.now) × (slice_index bytes.now n ≡ 10) × HasNoLineFeed (take n bytes.now)) }
    ensures none { IfNone result (HasNoLineFeed bytes.now) }
{
    for i in from..bytes.len() {
        if bytes[i] == b'\n' {
            return Some(i);
        }
    }
    None
}
