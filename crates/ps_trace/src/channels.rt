// The fault file of two channels.

ghost use Rattle.std.specs.Prelude.{◌≡◌, ◌≤◌, ℕ, List, IsTrue, Some, None, IsSome, Err, IfOk, IsErrOf, refl};
ghost use Rattle.std.proofs.lemmas.Bool.{false≢true};
ghost use Rattle.ps_outside.specs.Outside.{Rose, CountsStay};
ghost use Rattle.ps_base.specs.declared.failing.Refusal.{Refusal};
ghost use Rattle.ps_trace.specs.Channels.{line_of_fault};
ghost use Rattle.ps_trace.specs.Faults.{channel_fault, channel_of, faults_of, is_same_channel, region_size};
ghost use Rattle.ps_trace.specs.FaultOrder.{AreInOrder, AreOfOneChannel};
ghost use Rattle.ps_trace.specs.Reading.{IsRead};

use crate::TraceFail;
use crate::fault_file::read_faults_of;
use crate::faults::Faults;
use crate::target::{FaultLine, Target};
use ps_model::{Channel, Fault, ImageSizes, Region};
use ps_outside::Files;
use std::alloc::Global;

/// A fault of a channel keeps no number of a line.
impl Target for Channel {
    ghost use Rattle.ps_model.specs.declared.channel.Channel.TheVariants.{A, B};

    type Sizes = ImageSizes;

    type Fault = Fault;

    ghost named_by = { channel_of };

    ghost is_same = { is_same_channel };

    ghost length_of = { region_size };

    ghost made = { channel_fault };

    ghost parts = { line_of_fault };

    fn named(word: &[u8]) -> Option<Channel> {
        if word == b"A".as_slice() {
            Some(Channel::A)
        } else if word == b"B".as_slice() {
            Some(Channel::B)
        } else {
            None
        }
    }

    fn is(self, other: Channel) -> bool {
        self == other
    }

    fn region_length(self, sizes: &ImageSizes, region: Region) -> u32 {
        match (self, region) {
            (Channel::A, Region::Code) => sizes.a_code,
            (Channel::A, Region::Cells) => sizes.a_cells,
            (Channel::B, Region::Code) => sizes.b_code,
            (Channel::B, Region::Cells) => sizes.b_cells,
        }
    }

    fn fault(number: u32, line: FaultLine<Channel>) -> Fault
        ensures { result ≡ channel_fault number line }
    {
        let _number = number;
        Fault {
            scan: line.scan,
            turn: line.turn,
            channel: line.who,
            region: line.region,
            at: line.at,
            bytes: line.bytes,
        }
    }

    ghost same_are_equal = { elim [
      | A ↦ elim [ A ↦ λ same. refl | B ↦ λ same. absurd (false≢true same) ]
      | B ↦ elim [ A ↦ λ same. absurd (false≢true same) | B ↦ λ same. refl ]
    ] };

    ghost keeps_parts = { λ number line. refl };
}

/// The faults of a fault file, in its order, which is the order in which they strike. All strike one channel.
///
/// A line is `before <scan> <A|B> <code|memory> <offset> <bytes>`, or has `turn <turn>` after the scan. The first
/// refused line decides: it is line 1,001 (F5); it has over 600 bytes or not this form (F1); its scan or turn is less
/// than an earlier line's (F2); it passes the region's end (F3); its channel is not that of the first fault (F4).
/// `Fault` comes only where the files' count of the name rose in this call; every other answer leaves the counts as
/// they were.
pub fn read_faults<F: Files>(
    alloc: Global,
    files: &mut F,
    name: &str,
    sizes: &ImageSizes,
) -> Result<Faults, TraceFail>
    ensures gives { IsTrue (F.tells files.old) → (text : List ℕ) → F.held files.old name.now ≡ Some text →
        IfOk result (λ faults. faults_of text sizes.now ≡ record { faults = faults; refusal = None }) }
    ensures refuses { IsTrue (F.tells files.old) → (text : List ℕ) → F.held files.old name.now ≡ Some text →
        (refusal : Refusal) → result ≡ Err (TraceFail.Refused refusal) → (faults_of text sizes.now).refusal ≡ Some refusal }
    ensures found { IsTrue (F.tells files.old) → IsRead result → IsSome (F.held files.old name.now) }
    ensures fault { IsErrOf result TraceFail.Fault → Rose (F.faults files.old name.now) (F.faults files.new name.now) }
    ensures exact { ¬ IsErrOf result TraceFail.Fault → CountsStay (F.faults files.old) (F.faults files.new) }

    // Whether or not the files tell.
    ensures ordered { IfOk result AreInOrder }
    ensures one_channel { IfOk result AreOfOneChannel }

    ensures counts { (other : List ℕ) → F.faults files.old other ≤ F.faults files.new other }
    ensures kept { F.held files.new ≡ F.held files.old }
    ensures telling { F.tells files.new ≡ F.tells files.old }
{
    match read_faults_of::<Channel, F>(alloc, files, name, sizes, true) {
        Ok(items) => Ok(Faults::of(items)),
        Err(why) => Err(why),
    }
}
