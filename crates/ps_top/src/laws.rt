// Laws of what the program writes.

ghost use Rattle.std.specs.Prelude.{◌≡◌, List, Option, IsSome, ℕ};
ghost use Rattle.ps_model.specs.Meaning.{Item, Meaning, nothing};
ghost use Rattle.ps_demand.specs.Laws.{EachHasDemands};
ghost use Rattle.ps_model.specs.Network.{Network, input_count};
ghost use Rattle.ps_model.specs.Scanning.{State};
ghost use Rattle.ps_machine.specs.Items.{AreTimely};
ghost use Rattle.ps_trace.specs.Scans.{scans_of};
ghost use Rattle.ps_top.specs.Asking.{Answer, AsksFor, IsAnswer};
ghost use Rattle.ps_top.specs.Program as program;
ghost use Rattle.ps_top.specs.Skeletons.{AreSafeScans};
ghost use Rattle.ps_top.specs.Untripped.{NoFaultNoTrip, RunsTellAll, QuietFaultsTellAll, FaultsTellTrips};
ghost use Rattle.ps_top.specs.Program.{Ruling, Judges};
ghost use Rattle.ps_accepted.specs.Source.{Reading, IsAcceptedAs, IsResolvedAs};
ghost use Rattle.ps_accepted.specs.Source.Reading.{stands_for};

use ps_model::block_laws::each_demands;

/// In each report line of a run a SAFEBOOL output is TRUE only where its skeleton is: the lines are those of the states
/// of `Meaning`, and these keep it for every application that a source is accepted for.
pub fn lines_keep_skeletons()
    ensures { (source : List ℕ) (net : Network) (items : List Item) (ws : List State) →
        IsAcceptedAs source (stands_for net) → Meaning net items ws → AreSafeScans net nothing items ws }
{}

/// In each report line of a run a SAFEBOOL output is TRUE only where its demand holds of the inputs of the scan and the
/// signals of the scan before: the lines are those of the states of `Meaning`, and these keep it for every application
/// that a source is accepted for.
pub fn lines_meet_demands()
    ensures { (source : List ℕ) (net : Network) (items : List Item) (ws : List State) →
        IsAcceptedAs source (stands_for net) → Meaning net items ws → EachHasDemands net nothing items ws }
{
    each_demands();
}

/// The scans of a trace come in order of time, also across restarts: no time is earlier than that of the scan before,
/// and each has 32 bits. Each scan has a value for each input.
pub fn scans_in_order()
    ensures { (text : List ℕ) (net : Network) → AreTimely (input_count net) 0 (scans_of text net).items }
{}

/// Without faults no scan trips, of any trace, whole or refused at a line: `run`, and `fault` with a file that has no
/// faults, tell every scan by its report line.
pub fn no_fault_no_trip()
    ensures trips { NoFaultNoTrip }
    ensures run { RunsTellAll }
    ensures quiet_fault { QuietFaultsTellAll }
    ensures fault { FaultsTellTrips }
{}

/// The program has one answer alone, for its words and the texts that are held: one list of bytes, and one status.
pub fn one_answer()
    ensures { (words : List (List ℕ)) (held : List ℕ → Option (List ℕ)) (a b : Answer) →
        IsAnswer (program.text words) held a → IsAnswer (program.text words) held b → a ≡ b }
{}

/// Where all names that the text asks for are held there is an answer, if each source has a reading by its rules and
/// each certificate a judgement.
pub fn an_answer_exists()
    ensures { (words : List (List ℕ)) (held : List ℕ → Option (List ℕ)) →
        ((source : List ℕ) → (reading : Reading) × IsAcceptedAs source reading) →
        ((source : List ℕ) → (reading : Reading) × IsResolvedAs source reading) →
        ((net : Network) (certificate : List ℕ) → (judged : Ruling) × Judges net certificate judged) →
        ((name : List ℕ) → AsksFor (program.text words) held name → IsSome (held name)) →
        (answer : Answer) × IsAnswer (program.text words) held answer }
{}
