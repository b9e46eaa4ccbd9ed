//! What holds of all that is told of rules.

ghost use Rattle.ps_bench_never.specs.ReadBack.{CaseIsAccepted, CaseIsRead, ConditionIsRead, DifferenceIsAccepted, DifferenceIsRead, FoundIsAccepted, FoundIsRead, ScanIsRead};
ghost use Rattle.ps_bench_never.specs.Verdicts.{EachIsSo, EachIsSoAtAnyTimes, NoCaseIsSo};
ghost use Rattle.ps_bench_never.specs.Whenever.{PacedEndsMeeting};

/// A list of items whose scans come some ms apart, and which ends by meeting a rule, is one whose scans come at any times
/// and which does.
pub fn a_case_is_of_any_times()
    ensures { PacedEndsMeeting }
{}

/// What is told of each rule is so: it holds in every scan of every list; or fails by a shortest list, with times of 32
/// bits; or is open for a cause that is so, which is told.
pub fn each_rule_is_as_told()
    // Scans some ms apart: as many states were held as may be, or the times of a shortest list pass 32 bits.
    ensures paced { EachIsSo }
    // Scans at any times: as many states were held as may be, or a run was found that no times meet, or too many inputs
    // and timers are free.
    ensures any { EachIsSoAtAnyTimes }
    // No case of a rule was found some ms apart, as it holds so, or as many states were held as may be, or the times of a
    // shortest list pass 32 bits.
    ensures uncased { NoCaseIsSo }
{}

/// What is told is read back, by the definitions by which case files are read. The first two are of any scans, of names
/// without blanks, control bytes, `#` and `=`; the others of an accepted application and of a rules file that was read,
/// which has such names.
pub fn a_told_case_is_read()
    // A scan line asks for a scan so many ms later, with settings that make the inputs of this scan of those before.
    ensures scans { ScanIsRead }
    // A case that is told, where it keeps within the limits of a case file, is one case of its scans.
    ensures cases { CaseIsRead }
    // So the case that is told of a rule that fails is the list of scans that was found.
    ensures found { FoundIsRead }
    // The case that is told of two applications is the list of scans after which an output differs.
    ensures differs { DifferenceIsRead }
{}

/// What is told is not refused where case files are read, within the limits of a case file: its lines, the bytes of a
/// line and of all of them, and the bytes of its trace. Its names and values are always read.
pub fn a_told_case_is_not_refused()
    // A condition of a rule is read in a case as the check of the same name and the same values.
    ensures conditions { ConditionIsRead }
    // A case within these limits is read, and is one case of its scans.
    ensures cases { CaseIsAccepted }
    // So the case that is told of a rule that fails is read as the list of scans that was found.
    ensures found { FoundIsAccepted }
    // The case that is told of two applications is read as the list of scans after which an output differs.
    ensures differs { DifferenceIsAccepted }
{}
