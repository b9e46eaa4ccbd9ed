// What is drawn for a trial.

ghost use Rattle.std.specs.Prelude.{◌≡◌, ◌+◌, ◌%◌};
ghost use Rattle.rand_core.specs.Stream.{next_u64};
ghost use Rattle.ps_bench_trials.specs.Trials.{AreInRange, below, bits_by, channel_by, channel_in, region_by, room_in};
ghost use Rattle.ps_bench_trials.specs.Trials.{trial_by, trial_of};

use ps_model::{Channel, ImageSizes, Region};
use rand_core::{Rng, SeedableRng};
use rand_xoshiro::Xoshiro256PlusPlus;

/// What a trial's fault may strike: the regions of the channels, the scans of the run, and the turns of a scan; and, if
/// one alone is struck, the channel.
#[derive(Clone, Copy)]
pub struct Room {
    /// The lengths of the regions in bytes.
    pub sizes: ImageSizes,
    /// How many scans the run has.
    pub scans: u32,
    /// The larger of the budgets of turns of the two channels.
    pub budget: u32,
    /// The channel that every trial strikes, if it is not drawn.
    pub channel: Option<Channel>,
}

/// What was drawn for a trial: where and when its fault strikes, and with which bits.
#[derive(Clone, Copy)]
pub struct Trial {
    /// The channel.
    pub channel: Channel,
    /// The region of it.
    pub region: Region,
    /// The byte of the region, counted from 0.
    pub at: u32,
    /// In code the bits of the byte that are turned, one to eight; in cells the byte that is put there.
    pub bits: u8,
    /// The scan, counted from 1.
    pub scan: u32,
    /// Before this turn of the scan; 0 means before the scan begins.
    pub turn: u32,
}

// The next word of a generator.
fn draw<R: Rng>(rng: &mut R) -> u64
    ensures word { result ≡ (next_u64 (R.stream rng.old)).0 }
    ensures rest { R.stream rng.new ≡ (next_u64 (R.stream rng.old)).1 }
{
    rng.next_u64()
}

// A number below a count of up to 2^32, by a word; 0 where the count is 0.
fn below(word: u64, count: u32) -> u32
    ensures { result ≡ below word count }
{
    (word % u64::from(count.max(1))) as u32
}

// The scan that a word draws, counted from 1.
fn scan_by(word: u64, scans: u32) -> u32
    ensures { result ≡ below word scans + 1 }
{
    below(word, scans) + 1
}

// The turn that a word draws: 0 up to the budget.
fn turn_by(word: u64, budget: u32) -> u32
    ensures { result ≡ word % (budget + 1) }
{
    (word % (u64::from(budget) + 1)) as u32
}

// The channel that a word draws.
fn channel_by(word: u64) -> Channel
    ensures { result ≡ channel_by word }
{
    if word % 2 == 0 {
        Channel::A
    } else {
        Channel::B
    }
}

// The channel that is struck: this one, or the one that a word draws.
fn channel_in(only: Option<Channel>, word: u64) -> Channel
    ensures { result ≡ channel_in only word }
{
    match only {
        Some(channel) => channel,
        None => channel_by(word),
    }
}

// The region that a word draws.
fn region_by(word: u64) -> Region
    ensures { result ≡ region_by word }
{
    if word % 2 == 0 {
        Region::Code
    } else {
        Region::Cells
    }
}

// The length of a region of a channel.
fn room_in(sizes: &ImageSizes, channel: Channel, region: Region) -> u32
    ensures { result ≡ room_in sizes.now channel region }
{
    match (channel, region) {
        (Channel::A, Region::Code) => sizes.a_code,
        (Channel::A, Region::Cells) => sizes.a_cells,
        (Channel::B, Region::Code) => sizes.b_code,
        (Channel::B, Region::Cells) => sizes.b_cells,
    }
}

// The bits that a word draws of a region.
fn bits_by(region: Region, word: u64) -> u8
    ensures { result ≡ bits_by region word }
{
    match region {
        Region::Code => (word % 255) as u8 + 1,
        Region::Cells => (word % 256) as u8,
    }
}

// The trial that a generator draws.
fn trial_by<R: Rng>(rng: &mut R, room: &Room) -> Trial
    ensures { result ≡ trial_by room.now (R.stream rng.old) }
{
    let channel = channel_in(room.channel, draw(rng));
    let region = region_by(draw(rng));
    let at = below(draw(rng), room_in(&room.sizes, channel, region));
    let bits = bits_by(region, draw(rng));
    let scan = scan_by(draw(rng), room.scans);
    let turn = turn_by(draw(rng), room.budget);
    Trial {
        channel,
        region,
        at,
        bits,
        scan,
        turn,
    }
}

/// The trial of a number: the same number gives the same trial in the same room. Channel, region, place, scan and turn
/// are each drawn alike often, but for a part of less than 1 in 2^31.
pub fn draw_trial(number: u64, room: &Room) -> Trial
    ensures drawn { result ≡ trial_of room.now number }
    ensures ranges { AreInRange room.now result }
{
    let mut rng = Xoshiro256PlusPlus::seed_from_u64(number);
    trial_by(&mut rng, room)
}
