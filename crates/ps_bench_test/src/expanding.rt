// `expand APP CASES`: writes one trace of all cases of a file.

ghost use Rattle.std.specs.Prelude.{◌≡◌, ◌≤◌, ◌++◌, ◌∷◌, [], ℕ, List, Any, IsTrue, IfErr, IsErrOf, OnOk};
ghost use Rattle.ps_bench_cases.specs.Expanded.{expanded};
ghost use Rattle.ps_bench_cases.specs.declared.case.CaseFile.{CaseFile as CaseFileOf};
ghost use Rattle.ps_model.specs.Network.{Network};
ghost use Rattle.ps_model.specs.declared.channel.ImageSizes.{ImageSizes};
ghost use Rattle.ps_outside.specs.Outside.{Rose};
ghost use Rattle.ps_bench_frame.specs.Ending.{IsUnread};
ghost use Rattle.ps_bench_frame.specs.Opening.{IsOfApp, IsOfText, source};
ghost use Rattle.ps_bench_test.specs.Stopping.{StopsExpanding};

use ps_bench_cases::{ExpandFail, expand as write_expanded};
use ps_bench_frame::{Stop, open_app, open_written_cases};
use ps_outside::{Files, Output};
use std::alloc::Global;

/// `expand APP CASES`: writes one trace of all cases of the file of this name. Where the application or the file is
/// refused, the line of the refusal is written in its place.
///
/// A file that cannot be read is one of the two, whose count of the files rose in this call; `Unwritten` comes only
/// where the output's count rose.
pub fn expand<F: Files, O: Output>(
    alloc: Global,
    files: &mut F,
    out: &mut O,
    app: &str,
    cases: &str,
) -> Result<(), Stop>
    ensures says { OnOk result ((net : Network) × (sizes : ImageSizes)
        × IsOfApp (source net sizes (F.tells files.old) (F.held files.old)) app.now
        × (file : CaseFileOf) × IsOfText (source net sizes (F.tells files.old) (F.held files.old)) cases.now file
        × (IsTrue (O.tells out.old) → O.taken out.new ≡ O.taken out.old ++ expanded net file)) }
    ensures stops { IfErr result (λ stop. StopsExpanding (F.tells files.old) (F.held files.old) app.now cases.now stop
        (O.tells out.old) (O.taken out.old) (O.taken out.new)) }
    ensures unread { IfErr result (λ stop. IsUnread stop →
        Any (λ (name : List ℕ). Rose (F.faults files.old name) (F.faults files.new name)) (app.now ∷ cases.now ∷ [])) }
    ensures unwritten { IsErrOf result Stop.Unwritten → Rose (O.faults out.old) (O.faults out.new) }
    ensures writes { O.faults out.old ≤ O.faults out.new }
    ensures telling { O.tells out.new ≡ O.tells out.old }
{
    let opened = open_app(alloc, files, out, app)?;
    let file = open_written_cases(alloc, files, out, &opened, cases)?;
    match write_expanded(out, alloc, &opened.app, &file) {
        Ok(()) => Ok(()),
        Err(ExpandFail::Memory) => Err(Stop::NoMemory),
        Err(ExpandFail::Fault) => Err(Stop::Unwritten),
    }
}
