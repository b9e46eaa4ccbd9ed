// What a person reads where no scan is at or before a time.

ghost use Rattle.std.specs.Prelude.{◌≡◌, IfOk, IsTrue};
ghost use Rattle.ps_bench_messages.specs.Remarking.{HearsRemark};
ghost use Rattle.ps_bench_why.specs.Remarking.{no_scan_text};
ghost use Rattle.ps_edge.specs.Hearing.{listener_seen};

use crate::looping::Met;
use ps_base::{Bytes, Memory};
use ps_bench_frame::pieces::{add_short, add_shown};
use ps_edge::KnownListener;
use ps_message::NO_MEMORY;
use std::alloc::Global;

// The message, with the time of the first scan where there is one.
fn no_scan(alloc: Global, trace: &str, time: u32, met: Met) -> Result<Bytes, Memory>
    ensures { IfOk result (λ text. text ≡ no_scan_text trace.now time met) }
{
    let mut text = Bytes::new(alloc);
    add_shown(&mut text, trace)?;
    text.extend_from_slice(b": no scan is at or before ")?;
    add_short(&mut text, time)?;
    match met {
        Met::Later(first) => {
            text.extend_from_slice(b" ms\nthe first scan is at ")?;
            add_short(&mut text, first)?;
            text.extend_from_slice(b" ms: give that time or a later one (docs/why.md)\n")?;
        }
        Met::End => text.extend_from_slice(b" ms: it has none (docs/why.md)\n")?,
    }
    Ok(text)
}

/// Tells a listener that no scan of what this word means is at or before a time, and when the first one is.
pub(crate) fn tell_no_scan<L: KnownListener>(
    alloc: Global,
    listener: &mut L,
    trace: &str,
    time: u32,
    met: Met,
)
    ensures told { IsTrue (L.tells listener.old) → HearsRemark (λ text. text ≡ no_scan_text trace.now time met)
        (listener_seen L.quiet L.heard L.reads L.unread L.room listener.old) (L.heard listener.new) }
    ensures listening { L.tells listener.new ≡ L.tells listener.old }
{
    if listener.is_quiet() {
        return;
    }
    match no_scan(alloc, trace, time, met) {
        Ok(text) => listener.hear_all(text.as_slice()),
        Err(Memory) => listener.hear_all(NO_MEMORY.as_bytes()),
    }
}
