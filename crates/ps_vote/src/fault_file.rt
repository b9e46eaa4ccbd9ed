// The fault files of three seats.

ghost use Rattle.std.specs.Prelude.{◌≡◌, ◌≤◌, ℕ, List, IsTrue, Some, None, IsSome, Err, IfOk, IsErrOf, refl};
ghost use Rattle.std.proofs.lemmas.Bool.{false≢true};
ghost use Rattle.ps_base.specs.declared.failing.Refusal.{Refusal};
ghost use Rattle.ps_outside.specs.Outside.{Rose, CountsStay};
ghost use Rattle.ps_trace.specs.FaultOrder.{StrikeInOrder, StrikeOne};
ghost use Rattle.ps_trace.specs.Reading.{IsRead};
ghost use Rattle.ps_vote.specs.Faults.{heal_faults_of, line_of_fault, seat_fault, seat_length, seat_of, vote_faults_of};
ghost use Rattle.ps_vote.specs.Worlds.{is_same};

use crate::faults::{VoteFault, VoteFaults};
use crate::seat::{Seat, VoteSizes};
use ps_model::Region;
use ps_outside::Files;
use ps_trace::{FaultLine, Target, TraceFail, read_faults_of};
use std::alloc::Global;

/// A fault of a seat keeps the number of its line.
impl Target for Seat {
    ghost use Rattle.ps_vote.specs.declared.seat.Seat.TheVariants.{A, B, C};

    type Sizes = VoteSizes;

    type Fault = VoteFault;

    ghost named_by = { seat_of };

    ghost is_same = { is_same };

    ghost length_of = { seat_length };

    ghost made = { seat_fault };

    ghost parts = { line_of_fault };

    fn named(word: &[u8]) -> Option<Seat> {
        if word == b"A".as_slice() {
            Some(Seat::A)
        } else if word == b"B".as_slice() {
            Some(Seat::B)
        } else if word == b"C".as_slice() {
            Some(Seat::C)
        } else {
            None
        }
    }

    fn is(self, other: Seat) -> bool {
        self == other
    }

    fn region_length(self, sizes: &VoteSizes, region: Region) -> u32 {
        let lengths = match region {
            Region::Code => &sizes.code,
            Region::Cells => &sizes.cells,
        };
        match self {
            Seat::A => lengths[0],
            Seat::B => lengths[1],
            Seat::C => lengths[2],
        }
    }

    fn fault(number: u32, line: FaultLine<Seat>) -> VoteFault
        ensures { result ≡ seat_fault number line }
    {
        VoteFault {
            line: number,
            scan: line.scan,
            turn: line.turn,
            seat: line.who,
            region: line.region,
            at: line.at,
            bytes: line.bytes,
        }
    }

    ghost same_are_equal = { elim [
      | A ↦ elim [ A ↦ λ same. refl | B ↦ λ same. absurd (false≢true same) | C ↦ λ same. absurd (false≢true same) ]
      | B ↦ elim [ A ↦ λ same. absurd (false≢true same) | B ↦ λ same. refl | C ↦ λ same. absurd (false≢true same) ]
      | C ↦ elim [ A ↦ λ same. absurd (false≢true same) | B ↦ λ same. absurd (false≢true same) | C ↦ λ same. refl ]
    ] };

    ghost keeps_parts = { λ number line. refl };
}

/// The faults of a fault file of `vote`, in its order, which is the order in which they strike. All strike one seat.
///
/// A line is `before <scan> <A|B|C> <code|memory> <offset> <bytes>`, or has `turn <turn>` after the scan. The first
/// refused line decides: it is line 1,001 (F5); it has over 600 bytes or not this form (F1); its scan or turn is less
/// than an earlier line's (F2); it passes the region's end (F3); its seat is not that of the first fault (F4). `Fault`
/// comes only where the files' count of the name rose in this call; every other answer leaves the counts as they were.
pub fn read_vote_faults<F: Files>(
    alloc: Global,
    files: &mut F,
    name: &str,
    sizes: &VoteSizes,
) -> Result<VoteFaults, TraceFail>
    ensures gives { IsTrue (F.tells files.old) → (text : List ℕ) → F.held files.old name.now ≡ Some text →
        IfOk result (λ faults. vote_faults_of text sizes.now ≡ record { faults = faults; refusal = None }) }
    ensures refuses { IsTrue (F.tells files.old) → (text : List ℕ) → F.held files.old name.now ≡ Some text →
        (refusal : Refusal) → result ≡ Err (TraceFail.Refused refusal) → (vote_faults_of text sizes.now).refusal ≡ Some refusal }
    ensures found { IsTrue (F.tells files.old) → IsRead result → IsSome (F.held files.old name.now) }
    ensures fault { IsErrOf result TraceFail.Fault → Rose (F.faults files.old name.now) (F.faults files.new name.now) }
    ensures exact { ¬ IsErrOf result TraceFail.Fault → CountsStay (F.faults files.old) (F.faults files.new) }

    // Whether or not the files tell.
    ensures ordered { IfOk result (λ faults. StrikeInOrder line_of_fault faults) }
    ensures one_seat { IfOk result (λ faults. StrikeOne line_of_fault faults) }

    ensures counts { (other : List ℕ) → F.faults files.old other ≤ F.faults files.new other }
    ensures kept { F.held files.new ≡ F.held files.old }
    ensures telling { F.tells files.new ≡ F.tells files.old }
{
    match read_faults_of::<Seat, F>(alloc, files, name, sizes, true) {
        Ok(items) => Ok(VoteFaults::of(items)),
        Err(why) => Err(why),
    }
}

/// The faults of a fault file of `heal`: as those of `vote`, but they may strike any seats, so the file is not refused
/// by F4. `Fault` comes only where the files' count of the name rose in this call; every other answer leaves the counts
/// as they were.
pub fn read_heal_faults<F: Files>(
    alloc: Global,
    files: &mut F,
    name: &str,
    sizes: &VoteSizes,
) -> Result<VoteFaults, TraceFail>
    ensures gives { IsTrue (F.tells files.old) → (text : List ℕ) → F.held files.old name.now ≡ Some text →
        IfOk result (λ faults. heal_faults_of text sizes.now ≡ record { faults = faults; refusal = None }) }
    ensures refuses { IsTrue (F.tells files.old) → (text : List ℕ) → F.held files.old name.now ≡ Some text →
        (refusal : Refusal) → result ≡ Err (TraceFail.Refused refusal) → (heal_faults_of text sizes.now).refusal ≡ Some refusal }
    ensures found { IsTrue (F.tells files.old) → IsRead result → IsSome (F.held files.old name.now) }
    ensures fault { IsErrOf result TraceFail.Fault → Rose (F.faults files.old name.now) (F.faults files.new name.now) }
    ensures exact { ¬ IsErrOf result TraceFail.Fault → CountsStay (F.faults files.old) (F.faults files.new) }

    // Whether or not the files tell.
    ensures ordered { IfOk result (λ faults. StrikeInOrder line_of_fault faults) }

    ensures counts { (other : List ℕ) → F.faults files.old other ≤ F.faults files.new other }
    ensures kept { F.held files.new ≡ F.held files.old }
    ensures telling { F.tells files.new ≡ F.tells files.old }
{
    match read_faults_of::<Seat, F>(alloc, files, name, sizes, false) {
        Ok(items) => Ok(VoteFaults::of(items)),
        Err(why) => Err(why),
    }
}
