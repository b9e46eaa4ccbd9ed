// Scans that are tried: whether they come as is said, and whether the last of them meets a rule.

ghost use Rattle.std.specs.Prelude.{◌≡◌, ◌+◌, true, IfOk, IfSome, OnOk, length, map};
ghost use Rattle.ps_model.specs.Meaning.{Past, nothing};
ghost use Rattle.ps_reach.specs.Asking.{AreAsSaid, Pins, Point, input_value, no_pins, sourced};
ghost use Rattle.ps_reach.specs.Promised.{EndsMeeting};
ghost use Rattle.ps_reach.specs.Telling.{scans_at};
ghost use Rattle.ps_reach.specs.Tracing.{inputs_in};
ghost use Rattle.ps_cut.specs.Trying.{IsTrialFor, GoesOn, IsAt, StandsAt};

use crate::moment::{Between, Moment};
use crate::proving::OfRule;
use ps_base::Memory;
use ps_machine::bit_at;
use ps_model::{App, Report};
use ps_reach::{Asked, InputRule, ScanInputs, Source};
use ps_scan::Scanner;
use std::alloc::Global;

// The value of an input by its source, where any value would be `free`.
fn sourced(source: Source, before: &[bool], free: bool) -> bool
    ensures { (p : Point) → before.now ≡ p.state.signals → result ≡ sourced source p.state free }
{
    match source {
        Source::Free => free,
        Source::Fixed(value) => value,
        Source::Follows { signal, negated } => {
            let value = bit_at(before, usize::from(signal));
            if negated { !value } else { value }
        }
    }
}

// The value of an input in the next scan, where any value would be `free`.
fn input_value(rule: &InputRule, moment: &Moment, free: bool) -> bool
    ensures { (p : Point) → moment.now.is_begun ≡ p.begun → moment.now.signals.items ≡ p.state.signals → result ≡ input_value rule.now p free }
{
    let value = sourced(rule.source, moment.signals.as_slice(), free);
    match rule.first {
        Some(first) if !moment.is_begun => first,
        _ => value,
    }
}

// Whether the inputs of the next scan are as is said.
fn are_as_said(asked: &Asked, moment: &Moment, ins: &[bool]) -> bool
    ensures { result ≡ true → (p : Point) → moment.now.is_begun ≡ p.begun → moment.now.signals.items ≡ p.state.signals → AreAsSaid asked.now p ins.now }
{
    for s in 0..asked.inputs.len() {
        let value = bit_at(ins, s);
        if value != input_value(&asked.inputs[s], moment, value) {
            return false;
        }
    }
    true
}

// The inputs of the next scan, so many: those that are wanted, but for those of which something else is said.
fn said_inputs(
    alloc: Global,
    asked: &Asked,
    moment: &Moment,
    count: usize,
    wanted: &[bool],
) -> Result<Vec<bool>, Memory> {
    let mut ins = Vec::with_capacity(alloc, count)?;
    for s in 0..count {
        let free = bit_at(wanted, s);
        ins.push(match asked.inputs.get(s) {
            Some(rule) => input_value(rule, moment, free),
            None => free,
        })?;
    }
    Ok(ins)
}

/// A run of an application that is tried, so far.
#[derive(Drop)]
pub(crate) struct Trial {
    /// The plain evaluator after the last scan.
    pub scanner: Scanner,
    /// The report of the last scan.
    pub report: Report,
    /// What checks can ask for.
    pub moment: Moment,
    /// The time of the next scan in ms.
    pub now: u32,
}

impl Trial {
    // Before the first scan.
    fn new(alloc: Global, of: &OfRule<'_, '_>) -> Result<Trial, Memory>
        ensures fits { IfOk result (IsTrialFor of.now.app.now) }
        ensures stands { IfOk result (StandsAt of.now.app.now of.now.asked.now nothing no_pins) }
        ensures time { IfOk result (λ trial. trial.now ≡ 0) }
    {
        Ok(Trial {
            scanner: Scanner::new(alloc, of.app)?,
            report: Report::for_app(alloc, of.app)?,
            moment: Moment::first(alloc, of.app)?,
            now: 0,
        })
    }

    // Makes the next scan, and says whether it meets the rule. `None`: it does not come as is said, or the next one would
    // come after 2^32 ms.
    fn scan(
        &mut self,
        alloc: Global,
        of: &OfRule<'_, '_>,
        ins: &[bool],
    ) -> Result<Option<bool>, Memory>
        requires fits { IsTrialFor of.now.app.now self.old }
        ensures fits { OnOk result (IsTrialFor of.now.app.now self.new) }
        ensures goes { (past : Past) (pins : Pins) → StandsAt of.now.app.now of.now.asked.now past pins self.old →
            IfOk result (λ met. IfSome met (λ met. (self.new.now ≡ self.old.now + of.now.asked.now.every)
            × GoesOn of.now.app.now of.now.asked.now of.now.rule past pins self.old.now ins.now met self.new)) }
    {
        let every = of.asked.every;
        if ins.len() != usize::from(of.app.input_count()) || self.now > u32::MAX - every {
            return Ok(None);
        }
        if !are_as_said(of.asked, &self.moment, ins) {
            return Ok(None);
        }
        self.scanner.scan(of.app, self.now, ins, &mut self.report);
        let behind = self
            .moment
            .next(alloc, self.scanner.signals(), &self.report.diags)?;
        let met = Between {
            app: of.app,
            before: &self.moment,
            behind: &behind,
        }
        .meets(of.asked, of.rule);
        self.moment = behind;
        self.now += every;
        Ok(Some(met))
    }
}

/// Whether scans with these inputs, the first at 0 ms and each as long after the one before as is asked, come as is said,
/// and the last of them meets a rule, by its number. TRUE is proved; FALSE says nothing where the scans would take
/// 2^32 ms. An error means out of memory.
pub fn ends_meeting(
    alloc: Global,
    app: &App,
    asked: &Asked,
    rule: usize,
    scans: &[ScanInputs],
) -> Result<bool, Memory>
    ensures { IfOk result (λ met. met ≡ true → EndsMeeting app.now asked.now rule (scans_at 0 asked.now.every (map inputs_in scans.now))) }
{
    let of = OfRule { app, asked, rule };
    let mut trial = Trial::new(alloc, &of)?;
    let mut met = false;
    for k in 0..scans.len() {
        match trial.scan(alloc, &of, scans[k].values.as_slice())? {
            Some(is_met) => met = is_met,
            None => return Ok(false),
        }
    }
    Ok(met)
}

// Scans whose inputs are those that are wanted, but for those of which something else is said; None if the last one
// would come after 2^32 ms.
fn said_scans(
    alloc: Global,
    of: &OfRule<'_, '_>,
    wanted: &[ScanInputs],
) -> Result<Option<Vec<ScanInputs>>, Memory>
    ensures { IfOk result (λ scans. IfSome scans (λ scans. length scans.items ≡ length wanted.now)) }
{
    let count = usize::from(of.app.input_count());
    let mut trial = Trial::new(alloc, of)?;
    let mut scans = Vec::with_capacity(alloc, wanted.len())?;
    for k in 0..wanted.len() {
        let wished = wanted[k].values.as_slice();
        let values = said_inputs(alloc, of.asked, &trial.moment, count, wished)?;
        if trial.scan(alloc, of, values.as_slice())?.is_none() {
            return Ok(None);
        }
        scans.push(ScanInputs { values })?;
    }
    Ok(Some(scans))
}

/// As many scans as are wanted, the last of which meets a rule, by its number: their inputs are those that are wanted,
/// but for those of which something else is said. `None` says nothing of the rule. An error means out of memory.
pub fn tried(
    alloc: Global,
    app: &App,
    asked: &Asked,
    rule: usize,
    wanted: &[ScanInputs],
) -> Result<Option<Vec<ScanInputs>>, Memory>
    ensures { IfOk result (λ scans. IfSome scans (λ s.
        EndsMeeting app.now asked.now rule (scans_at 0 asked.now.every (map inputs_in s.items)) × (length s.items ≡ length wanted.now))) }
{
    let of = OfRule { app, asked, rule };
    let Some(scans) = said_scans(alloc, &of, wanted)? else {
        return Ok(None);
    };
    if ends_meeting(alloc, app, asked, rule, scans.as_slice())? {
        Ok(Some(scans))
    } else {
        Ok(None)
    }
}
