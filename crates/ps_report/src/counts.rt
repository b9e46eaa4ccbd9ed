// The lines of counts.

ghost use Rattle.std.specs.Prelude.{◌≡◌};
ghost use Rattle.ps_report.specs.Short.{check_text, load_text};

use crate::short::ShortLine;
use ps_model::App;

/// The summary of a load: `load 1 scans 1000 true 500 errors 0`, with its number, the number of scans, and the numbers
/// of TRUE outputs and of TRUE Errors. It takes no memory.
pub fn load_line(n: u32, scans: u64, trues: u64, errors: u64) -> ShortLine
    ensures { result ≡ load_text n scans trues errors }
{
    let mut line = ShortLine::of("load ");
    line.put_number(u64::from(n));
    line.put(" scans ");
    line.put_number(scans);
    line.put(" true ");
    line.put_number(trues);
    line.put(" errors ");
    line.put_number(errors);
    line.put("\n");
    line
}

/// The counts of an accepted application: `accepted inputs 3 outputs 1 locals 0 instances 1 steps 2 nodes 5`. It takes
/// no memory.
pub fn check_line(app: &App) -> ShortLine
    ensures { result ≡ check_text app.now }
{
    let mut line = ShortLine::of("accepted inputs ");
    line.put_count(u32::from(app.input_count()));
    line.put(" outputs ");
    line.put_count(u32::from(app.output_count()));
    line.put(" locals ");
    line.put_count(u32::from(app.local_count()));
    line.put(" instances ");
    line.put_count(u32::from(app.instance_count()));
    line.put(" steps ");
    line.put_count(u32::from(app.step_count()));
    line.put(" nodes ");
    line.put_count(app.node_count());
    line.put("\n");
    line
}
