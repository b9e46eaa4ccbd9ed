// What a person reads on standard error of a case that expects nothing.

use crate::CaseRun;
use ps_base::{Bytes, Memory};
use ps_bench_cases::{Act, Statement};
use ps_bench_frame::pieces::add_place;
use ps_message::{Listener, hear_bytes};
use std::alloc::Global;

// Whether one of these statements expects something.
fn expects(statements: &[Statement]) -> bool {
    statements
        .iter()
        .any(|statement| matches!(statement.act, Act::Expect(_)))
}

// That a case expects nothing.
fn nothing_expected(alloc: Global, run: &CaseRun<'_>) -> Result<Bytes, Memory> {
    let mut text = Bytes::new(alloc);
    add_place(&mut text, run.name, run.case.line)?;
    text.extend_from_slice(b": the case expects nothing, so it passes unless a scan trips\n")?;
    text.extend_from_slice(b"give it a line expect behind a scan (docs/cases.md)\n")?;
    Ok(text)
}

// Tells of a case that passed and expects nothing. If memory runs out it is left out.
pub(crate) fn tell_of_nothing<L: Listener>(alloc: Global, listener: &mut L, run: &CaseRun<'_>) {
    if !run.passed()
        || expects(run.file.begin.as_slice())
        || expects(run.case.statements.as_slice())
        || listener.is_quiet()
    {
        return;
    }
    match nothing_expected(alloc, run) {
        Ok(text) => hear_bytes(listener, text.as_slice()),
        Err(Memory) => (),
    }
}
