// The line of a case file, of a rules file, of a log or of a file of counts that is refused, and how a call ends that
// refuses a log.

ghost use Rattle.std.specs.Prelude.{◌≡◌, ◌≤◌, ◌++◌, IfOk, OnOk};
ghost use Rattle.ps_bench_frame.specs.Ending.{IsUnread};
ghost use Rattle.ps_bench_frame.specs.Refusing.{log_refused_line, refused_line, rules_refused_line, sum_refused_line};
ghost use Rattle.ps_bench_frame.specs.Stopping.{StopsAtLog};
ghost use Rattle.ps_outside.specs.Outside.{Rose};

use crate::ending::{InputStop, Stop};
use crate::pieces::add_short;
use ps_base::{Bytes, Memory};
use ps_bench_cases::CaseRefusal;
use ps_bench_logs::LogRefusal;
use ps_bench_rules::RulesRefusal;
use ps_bench_trials::SumRefusal;
use ps_outside::{Output, write_all};
use std::alloc::Global;

/// The line of a refusal at the end of a text, as `refused K2 line 3`.
pub fn add_refusal(text: &mut Bytes, refusal: CaseRefusal) -> Result<(), Memory>
    ensures { OnOk result (text.new ≡ text.old ++ refused_line refusal) }
{
    text.extend_from_slice(b"refused K")?;
    add_short(text, u32::from(refusal.rule.number()))?;
    text.extend_from_slice(b" line ")?;
    add_short(text, refusal.line)?;
    text.extend_from_slice(b"\n")
}

/// The line of a refusal, as `refused K2 line 3`.
pub fn refused_line(alloc: Global, refusal: CaseRefusal) -> Result<Bytes, Memory>
    ensures { IfOk result (λ bytes. bytes ≡ refused_line refusal) }
{
    let mut text = Bytes::new(alloc);
    add_refusal(&mut text, refusal)?;
    Ok(text)
}

/// The line of a refusal of a rules file, as `refused R2 line 3`.
pub fn rules_refused_line(alloc: Global, refusal: RulesRefusal) -> Result<Bytes, Memory>
    ensures { IfOk result (λ bytes. bytes ≡ rules_refused_line refusal) }
{
    let mut text = Bytes::new(alloc);
    text.extend_from_slice(b"refused R")?;
    add_short(&mut text, u32::from(refusal.flaw.number()))?;
    text.extend_from_slice(b" line ")?;
    add_short(&mut text, refusal.line)?;
    text.extend_from_slice(b"\n")?;
    Ok(text)
}

/// The line of a refusal of a log, as `refused V2 line 1`.
pub fn log_refused_line(alloc: Global, refusal: LogRefusal) -> Result<Bytes, Memory>
    ensures { IfOk result (λ bytes. bytes ≡ log_refused_line refusal) }
{
    let mut text = Bytes::new(alloc);
    text.extend_from_slice(b"refused V")?;
    add_short(&mut text, u32::from(refusal.flaw.number()))?;
    text.extend_from_slice(b" line ")?;
    add_short(&mut text, refusal.line)?;
    text.extend_from_slice(b"\n")?;
    Ok(text)
}

/// The line of a refusal of a file of counts, as `refused U2 line 1`.
pub fn sum_refused_line(alloc: Global, refusal: SumRefusal) -> Result<Bytes, Memory>
    ensures { IfOk result (λ bytes. bytes ≡ sum_refused_line refusal) }
{
    let mut text = Bytes::new(alloc);
    text.extend_from_slice(b"refused U")?;
    add_short(&mut text, u32::from(refusal.rule.number()))?;
    text.extend_from_slice(b" line ")?;
    add_short(&mut text, refusal.line)?;
    text.extend_from_slice(b"\n")?;
    Ok(text)
}

/// Ends a call at a refused line of a log: the line of the refusal is written.
///
/// `Unwritten` comes only where the output's count rose.
pub fn refuse_log<O: Output>(alloc: Global, out: &mut O, refusal: LogRefusal) -> Stop
    ensures refuses { StopsAtLog refusal (O.tells out.old) (O.taken out.old) (O.taken out.new) result }
    ensures read { ¬ IsUnread result }
    ensures unwritten { result ≡ Stop.Unwritten → Rose (O.faults out.old) (O.faults out.new) }
    ensures writes { O.faults out.old ≤ O.faults out.new }
    ensures telling { O.tells out.new ≡ O.tells out.old }
{
    match log_refused_line(alloc, refusal) {
        Ok(line) => match write_all(out, line.as_slice()) {
            Ok(()) => Stop::Input(InputStop::LogRefused(refusal)),
            Err(_) => Stop::Unwritten,
        },
        Err(Memory) => Stop::NoMemory,
    }
}
