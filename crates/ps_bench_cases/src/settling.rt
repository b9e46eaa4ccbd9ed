// What a line of a case does after the lines before it, and how the case stands then.

ghost use Rattle.std.specs.Prelude.{◌≡◌, ◌≤◌, ◌<◌, ◌+◌, ◌*◌, ◌^◌, false, IfOk};
ghost use Rattle.ps_base.specs.declared.limits.TheConstants.{LARGEST_TIME};
ghost use Rattle.ps_trace.specs.Faults.{is_other, is_same_channel};
ghost use Rattle.ps_bench_cases.specs.Stands.{rounds, scans_to, one_scan, scans_until, fault_settled, deed_settled};
ghost use Rattle.ps_bench_cases.specs.Stands.{is_over, unless_over, stand_after, IsSmall};

use crate::case::{Act, Expectation, Pace};
use crate::deed::Deed;
use crate::limits::{MOST_CASE_FAULTS, MOST_CASE_SCANS};
use crate::rule::CaseRule;
use crate::stand::Stand;
use ps_base::limits::LARGEST_TIME;
use ps_model::{Channel, Fault, ImageSizes};
use ps_trace::Target;

// What a line does that asks for something, after what stands before it, unless it makes too much.
pub(crate) fn settle(sizes: &ImageSizes, stand: &Stand, deed: Deed) -> Result<Act, CaseRule>
    requires { IsSmall stand.now }
    ensures settled { result ≡ unless_over stand.now (deed_settled sizes.now stand.now deed) }
    ensures within { IfOk result (λ act. is_over stand.now act ≡ false) }
{
    match settle_deed(sizes, stand, deed) {
        Ok(act) => {
            if is_over(stand, &act) {
                Err(CaseRule::K7)
            } else {
                Ok(act)
            }
        }
        Err(rule) => Err(rule),
    }
}

// What a line does that asks for something, after what stands before it.
fn settle_deed(sizes: &ImageSizes, stand: &Stand, deed: Deed) -> Result<Act, CaseRule>
    requires { IsSmall stand.now }
    ensures { result ≡ deed_settled sizes.now stand.now deed }
{
    match deed {
        Deed::Set => Ok(Act::Set),
        Deed::At(time) => one_scan(stand, u64::from(stand.origin) + u64::from(time)),
        Deed::After(time) => one_scan(stand, u64::from(stand.time) + u64::from(time)),
        Deed::Times(step, count) => times(stand, step, count),
        Deed::For(step, span) => scans_until(stand, step, u64::from(stand.time) + u64::from(span)),
        Deed::Until(step, time) => {
            scans_until(stand, step, u64::from(stand.origin) + u64::from(time))
        }
        Deed::Restart => Ok(Act::Restart),
        Deed::Fault(fault) => settle_fault(sizes, stand, fault),
        Deed::Expect(window, checks) => {
            let scan = stand.scans;
            if scan == 0 {
                return Err(CaseRule::K5);
            }
            Ok(Act::Expect(Expectation {
                scan,
                window,
                checks,
            }))
        }
    }
}

// So many scans, of which the last one is at this time.
fn scans_to(stand: &Stand, step: u32, target: u64, count: u64) -> Result<Act, CaseRule>
    requires few { target ≤ LARGEST_TIME → count < 2 ^ 32 }
    ensures { result ≡ scans_to stand.now step target count }
{
    let from = u64::from(stand.time);
    if target < from || target > u64::from(LARGEST_TIME - stand.base) {
        return Err(CaseRule::K4);
    }
    Ok(Act::Scans(Pace {
        from: stand.time,
        step,
        upto: target as u32,
        count: count as u32,
    }))
}

// One scan at this time.
fn one_scan(stand: &Stand, target: u64) -> Result<Act, CaseRule>
    requires { target < 2 ^ 33 }
    ensures { result ≡ one_scan stand.now target }
{
    if target > u64::from(LARGEST_TIME) {
        return Err(CaseRule::K4);
    }
    let step = target.saturating_sub(u64::from(stand.time));
    scans_to(stand, step as u32, target, 1)
}

// So many scans, a step apart.
fn times(stand: &Stand, step: u32, count: u32) -> Result<Act, CaseRule>
    ensures { result ≡ scans_to stand.now step (stand.now.time + count * step) count }
{
    let span = u64::from(count) * u64::from(step);
    if span > u64::from(LARGEST_TIME) {
        return Err(CaseRule::K4);
    }
    scans_to(stand, step, u64::from(stand.time) + span, u64::from(count))
}

// Scans a step apart, and one at this time. A step of 0 counts as 1.
fn scans_until(stand: &Stand, step: u32, target: u64) -> Result<Act, CaseRule>
    requires { target < 2 ^ 33 }
    ensures { result ≡ scans_until stand.now step target }
{
    let span = target.saturating_sub(u64::from(stand.time));
    scans_to(stand, step.max(1), target, rounds(step, span))
}

// How many steps it takes to come so far: one at least. A step of 0 counts as 1.
fn rounds(step: u32, span: u64) -> u64
    requires { span < 2 ^ 33 }
    ensures count { result ≡ rounds step span }
    ensures few { span < 2 ^ 32 → result < 2 ^ 32 }
{
    let step = u64::from(step.max(1));
    ((span + (step - 1)) / step).max(1)
}

// A fault of the next scan.
fn settle_fault(sizes: &ImageSizes, stand: &Stand, fault: Fault) -> Result<Act, CaseRule>
    requires { IsSmall stand.now }
    ensures { result ≡ fault_settled sizes.now stand.now fault }
{
    let size = fault.channel.region_length(sizes, fault.region);
    let end = u64::from(fault.at) + fault.bytes.len() as u64;
    if fault.turn < stand.turn || is_other(stand.struck, fault.channel) || end > u64::from(size) {
        return Err(CaseRule::K6);
    }
    let mut fault = fault;
    fault.scan = stand.scans + 1;
    Ok(Act::Fault(fault))
}

// Whether a channel is another one than the first fault strikes.
fn is_other(first: Option<Channel>, channel: Channel) -> bool
    ensures { result ≡ is_other is_same_channel first channel }
{
    match first {
        Some(first) => !first.is(channel),
        None => false,
    }
}

// Whether a line makes more scans or faults than there may be.
fn is_over(stand: &Stand, act: &Act) -> bool
    requires { IsSmall stand.now }
    ensures { result ≡ is_over stand.now act.now }
{
    match act {
        Act::Scans(pace) => u64::from(stand.made) + u64::from(pace.count)
            > u64::from(MOST_CASE_SCANS),
        Act::Fault(_) => stand.faults >= MOST_CASE_FAULTS,
        Act::Set | Act::Restart | Act::Expect(_) => false,
    }
}

// How a case stands after a line with this number that does this.
pub(crate) fn stand_after(number: u32, stand: Stand, act: &Act) -> Stand
    requires within { is_over stand act.now ≡ false }
    requires small { IsSmall stand }
    ensures after { result ≡ stand_after number stand act.now }
    ensures small { IsSmall result }
{
    match act {
        Act::Scans(pace) => Stand {
            base: stand.base,
            origin: stand.origin,
            time: pace.upto,
            scans: stand.scans + pace.count,
            made: stand.made + pace.count,
            faults: stand.faults,
            struck: stand.struck,
            turn: if pace.count == 0 { stand.turn } else { 0 },
            waiting: if pace.count == 0 { stand.waiting } else { 0 },
        },
        Act::Fault(fault) => Stand {
            base: stand.base,
            origin: stand.origin,
            time: stand.time,
            scans: stand.scans,
            made: stand.made,
            faults: stand.faults + 1,
            struck: Some(stand.struck.unwrap_or(fault.channel)),
            turn: fault.turn,
            waiting: if stand.waiting == 0 {
                number
            } else {
                stand.waiting
            },
        },
        Act::Set | Act::Restart | Act::Expect(_) => stand,
    }
}
