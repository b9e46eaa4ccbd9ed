// What a trial comes to, and the line that it counts in.

ghost use Rattle.std.specs.Prelude.{◌≡◌, ◌<◌};
ghost use Rattle.ps_bench_trials.specs.Outcomes.{channel_number, ended_by, kind_number, latency_in, place_of, region_number};

use ps_model::{Cause, Channel, Region, Verdict};

/// What a trial comes to.
#[derive(Clone, Copy)]
pub enum Outcome {
    /// Every scan was released as without the fault, up to the end.
    Silent,
    /// A scan tripped for this cause, so many ms after the scan that was struck.
    Tripped(Cause, u32),
    /// A scan was released with another report than without the fault.
    Wrong,
}

// The number of a channel.
fn channel_number(channel: Channel) -> usize
    ensures { result ≡ channel_number channel }
{
    match channel {
        Channel::A => 0,
        Channel::B => 1,
    }
}

// The number of a region.
fn region_number(region: Region) -> usize
    ensures { result ≡ region_number region }
{
    match region {
        Region::Code => 0,
        Region::Cells => 1,
    }
}

// The number of a kind of outcomes.
fn kind_number(outcome: Outcome) -> usize
    ensures value { result ≡ kind_number outcome }
    ensures few { result < 6 }
{
    match outcome {
        Outcome::Silent => 0,
        Outcome::Tripped(Cause::Differ(_), _) => 1,
        Outcome::Tripped(Cause::Stuck(_), _) => 2,
        Outcome::Tripped(Cause::Trap(_, _), _) => 3,
        Outcome::Tripped(Cause::NoReport(_), _) => 4,
        Outcome::Wrong => 5,
    }
}

/// The latency of a trip.
pub fn latency_in(outcome: Outcome) -> Option<u32>
    ensures { result ≡ latency_in outcome }
{
    match outcome {
        Outcome::Tripped(_, latency) => Some(latency),
        _ => None,
    }
}

/// The place of the line in which a trial counts: by channel, then by region, then by outcome.
pub fn place_of(channel: Channel, region: Region, outcome: Outcome) -> usize
    ensures place { result ≡ place_of channel region outcome }
    ensures few { result < 24 }
{
    12 * channel_number(channel) + 6 * region_number(region) + kind_number(outcome)
}

/// What a scan at this time ends a trial with, if it does, where it differs from the run without the fault in this field
/// of its report, if in any. `struck` is the time of the scan that was struck.
pub fn ended_by(verdict: Verdict, struck: u32, now: u32, differs: Option<u16>) -> Option<Outcome>
    ensures { result ≡ ended_by verdict struck now differs }
{
    match (verdict, differs) {
        (Verdict::Released, None) => None,
        (Verdict::Released, Some(_)) => Some(Outcome::Wrong),
        (Verdict::Tripped(cause), _) => Some(Outcome::Tripped(cause, now.saturating_sub(struck))),
        (Verdict::Down, _) => None,
    }
}
