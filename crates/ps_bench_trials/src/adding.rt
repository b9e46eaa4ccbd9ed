// What the files of several names tell, added.

ghost use Rattle.std.specs.Prelude.{◌≡◌, ◌≤◌, ◌∷◌, ℕ, List, Any, IsTrue, Err, IfErr, IfOk, OnOk, length, map};
ghost use Rattle.ps_outside.specs.Outside.{Rose};
ghost use Rattle.ps_bench_trials.specs.Files.{AddsFile, AddsFiles, IsOther, IsOtherFile, IsRefused, IsSum, Tells};
ghost use Rattle.ps_bench_trials.specs.Sums.{IsOfForm, IsWholly};
ghost use Rattle.ps_bench_trials.specs.declared.refusal.SumRefusal.{SumRefusal as RefusalOf};

use crate::refusal::{SumRefusal, SumRule};
use crate::summing::{LARGEST_SUM, Totals, flawed_line, read_totals};
use ps_base::Memory;
use ps_outside::{Files, ReadFail, read_upto};
use std::alloc::Global;

/// Why files are not added.
#[derive(Clone, Copy)]
pub enum SumStop {
    /// The file at this place of the names, counted from 0, cannot be read.
    Unread(usize),
    /// A file is refused.
    Refused(SumRefusal),
    /// Out of memory.
    NoMemory,
}

impl From<Memory> for SumStop {
    ghost use Rattle.std.specs.Prelude.{◌≡◌};
    ghost use Rattle.ps_bench_trials.specs.declared.adding.SumStop.TheVariants.{NoMemory as IsNoMemory};

    ghost from_gives = { λ _ stop. stop ≡ IsNoMemory };

    fn from(_memory: Memory) -> SumStop {
        SumStop::NoMemory
    }
}

// Why a text is not added that is none of a campaign, which stands at this place of the names.
fn of_form(alloc: Global, text: &[u8], place: usize) -> SumStop
    ensures { IsOfForm result }
{
    match flawed_line(alloc, text) {
        Ok(line) => SumStop::Refused(SumRefusal {
            place,
            rule: SumRule::U1,
            line,
        }),
        Err(Memory) => SumStop::NoMemory,
    }
}

// What a text tells, which stands at this place of the names. It is refused where it has more bytes than it may have.
fn totals_of(alloc: Global, text: &[u8], place: usize) -> Result<Totals, SumStop>
    ensures told { IfOk result (IsWholly text.now) }
    ensures form { IfErr result IsOfForm }
{
    if text.len() > LARGEST_SUM as usize {
        return Err(of_form(alloc, text, place));
    }
    match read_totals(alloc, text) {
        Ok(Some(totals)) => Ok(totals),
        Ok(None) => Err(of_form(alloc, text, place)),
        Err(Memory) => Err(SumStop::NoMemory),
    }
}

// What the file of a name tells, which stands at this place of the names.
fn read_file<F: Files>(
    alloc: Global,
    files: &mut F,
    name: &str,
    place: usize,
) -> Result<Totals, SumStop>
    ensures tells { IsTrue (F.tells files.old) → IfOk result (Tells (F.held files.old name.now)) }
    ensures unread { (n : ℕ) → result ≡ Err (SumStop.Unread n) →
        Rose (F.faults files.old name.now) (F.faults files.new name.now) }
    ensures refused { (refusal : RefusalOf) → result ≡ Err (SumStop.Refused refusal) → refusal.rule ≡ SumRule.U1 }
    ensures reads { (other : List ℕ) → F.faults files.old other ≤ F.faults files.new other }
    ensures kept { F.held files.new ≡ F.held files.old }
    ensures reading { F.tells files.new ≡ F.tells files.old }
{
    match read_upto(alloc, files, name, LARGEST_SUM + 1) {
        Ok(text) => totals_of(alloc, text.as_slice(), place),
        Err(ReadFail::Fault) => Err(SumStop::Unread(place)),
        Err(ReadFail::Memory) => Err(SumStop::NoMemory),
    }
}

// Adds what the file of a name tells, which stands at this place of the names.
fn add_file<F: Files>(
    alloc: Global,
    files: &mut F,
    name: &str,
    place: usize,
    total: &mut Totals,
) -> Result<(), SumStop>
    ensures adds { IsTrue (F.tells files.old) → OnOk result (AddsFile (F.held files.old name.now) total.old total.new) }
    ensures unread { (n : ℕ) → result ≡ Err (SumStop.Unread n) →
        Rose (F.faults files.old name.now) (F.faults files.new name.now) }
    ensures refused { (refusal : RefusalOf) → result ≡ Err (SumStop.Refused refusal) → IsTrue (F.tells files.old) →
        IsOtherFile (F.held files.old name.now) total.old refusal }
    ensures reads { (other : List ℕ) → F.faults files.old other ≤ F.faults files.new other }
    ensures kept { F.held files.new ≡ F.held files.old }
    ensures reading { F.tells files.new ≡ F.tells files.old }
{
    let more = match read_file(alloc, files, name, place) {
        Ok(more) => more,
        Err(stop) => return Err(stop),
    };
    match total.add(&more) {
        Ok(()) => Ok(()),
        Err(rule) => Err(SumStop::Refused(SumRefusal::of_head(place, rule))),
    }
}

// Adds what the files of these names tell, of which the first one stands after the first name of all.
fn add_files<F: Files>(
    alloc: Global,
    files: &mut F,
    names: &[&str],
    total: &mut Totals,
) -> Result<(), SumStop>
    ensures adds { IsTrue (F.tells files.old) → OnOk result
        (AddsFiles (F.held files.old) (map (λ name. name.now) names.now) total.old total.new) }
    ensures unread { (n : ℕ) → result ≡ Err (SumStop.Unread n) →
        Any (λ (name : List ℕ). Rose (F.faults files.old name) (F.faults files.new name))
        (map (λ name. name.now) names.now) }
    ensures refused { (refusal : RefusalOf) → result ≡ Err (SumStop.Refused refusal) → IsTrue (F.tells files.old) →
        IsOther (F.held files.old) (map (λ name. name.now) names.now) total.old refusal }
    ensures reads { (other : List ℕ) → F.faults files.old other ≤ F.faults files.new other }
    ensures kept { F.held files.new ≡ F.held files.old }
    ensures reading { F.tells files.new ≡ F.tells files.old }
{
    for place in 0..names.len() {
        match add_file(alloc, files, names[place], place + 1, total) {
            Ok(()) => {}
            Err(stop) => return Err(stop),
        }
    }
    Ok(())
}

/// What the files of these names tell together: each is what a campaign wrote, or such a sum, over one application and
/// one trace. It takes memory for one file at a time.
///
/// A file is refused by U1 where it is no such text, and by U2 or U3 where it is of another application or of another
/// trace than the first one. A file that cannot be read is one of these, whose count of the files rose in this call.
pub fn sum_files<F: Files>(
    alloc: Global,
    files: &mut F,
    first: &str,
    others: &[&str],
) -> Result<Totals, SumStop>
    ensures sums { IsTrue (F.tells files.old) →
        IfOk result (IsSum (F.held files.old) (first.now ∷ map (λ name. name.now) others.now)) }
    ensures unread { (n : ℕ) → result ≡ Err (SumStop.Unread n) →
        Any (λ (name : List ℕ). Rose (F.faults files.old name) (F.faults files.new name))
        (first.now ∷ map (λ name. name.now) others.now) }
    ensures refused { (refusal : RefusalOf) → result ≡ Err (SumStop.Refused refusal) → IsTrue (F.tells files.old) →
        IsRefused (F.held files.old) (first.now ∷ map (λ name. name.now) others.now) refusal }
    ensures reads { (other : List ℕ) → F.faults files.old other ≤ F.faults files.new other }
    ensures kept { F.held files.new ≡ F.held files.old }
    ensures reading { F.tells files.new ≡ F.tells files.old }
{
    let mut total = match read_file(alloc, files, first, 0) {
        Ok(total) => total,
        Err(stop) => return Err(stop),
    };
    match add_files(alloc, files, others, &mut total) {
        Ok(()) => Ok(total),
        Err(stop) => Err(stop),
    }
}
