// What no run does with a world of two channels: scans whose turns come in other orders, all turns of one channel before
// those of the other, and by turns with B first; and faults of both channels.

ghost use Rattle.std.specs.Prelude.{◌≡◌, ◌≤◌, IfSome, length};
ghost use Rattle.ps_model.specs.Network.{input_count};
ghost use Rattle.ps_model.specs.Typing.{Accepted};
ghost use Rattle.ps_tests.specs.Beginning.{IsBeginning};

use crate::application::{MOTOR, TWO, application};
use crate::fixtures::{bits_of, nothing, parts, shows};
use ps_model::{App, Channel, Fault, Report, Scan, Verdict};
use ps_outside::MemFiles;
use ps_report::LineBuffer;
use ps_trace::read_faults_of;
use ps_world::World;
use std::alloc::Global;

// The ordinary use of M: the time of each scan, its inputs, a digit each, its outputs, and the DiagCode of each instance.
const USE: &str = "\
0 101 0 8001
0 101 0 8002
0 101 0 8003
0 111 1 8000
0 100 0 8000
0 001 0 8004
";

// Both stops are reset, the second is pressed, reset while it is pressed, which is an error, and let go.
const STOPS: &str = "\
0 110 00 8001 8001
0 110 00 8002 8002
0 110 00 8003 8003
0 111 11 8000 8000
0 100 10 8000 8004
0 101 10 8000 C002
0 110 10 8000 8004
";

// Orders of the turns in each scan of M, a letter for each turn.
const ORDERS: &str = "\
AAAAAAAAAAABBBBB
BBBBBAAAAAAAAAAA
BABABABABAAAAAAA
";

// The same of the application with two stops.
const ORDERS_OF_TWO: &str = "\
AAAAAAAAAAAAAAAAABBBBB
BBBBBAAAAAAAAAAAAAAAAA
BABABABABAAAAAAAAAAAAA
";

// Makes a turn of a channel. Whether the scan is begun and the channel has not ended.
fn is_made(world: &mut World, of: Channel) -> bool
    ensures setup { world.new.setup ≡ world.old.setup }
    ensures last { world.new.state.last ≡ world.old.state.last }
{
    if !world.scan_begun() || world.ended(of) {
        return false;
    }
    world.turn(of);
    true
}

// Makes the turns of a scan that is begun. Whether each of them is made.
fn are_made(world: &mut World, order: &str) -> bool
    ensures setup { world.new.setup ≡ world.old.setup }
    ensures last { world.new.state.last ≡ world.old.state.last }
{
    let mut are_so = true;
    for letter in order.as_bytes() {
        let of = if *letter == b'A' {
            Channel::A
        } else {
            Channel::B
        };
        are_so = is_made(world, of) && are_so;
    }
    are_so
}

// Closes a scan that is begun, if both channels have ended. Whether it releases its report, and the world rests then.
fn is_released(world: &mut World, report: &mut Report) -> bool
    requires outs { length report.old.outs ≡ world.old.setup.sizes.outputs }
    requires diags { length report.old.diags ≡ world.old.setup.sizes.instances }
    ensures setup { world.new.setup ≡ world.old.setup }
    ensures last { world.new.state.last ≡ world.old.state.last }
    ensures outs { length report.new.outs ≡ length report.old.outs }
    ensures diags { length report.new.diags ≡ length report.old.diags }
{
    if !world.scan_begun() || !world.ended(Channel::A) || !world.ended(Channel::B) {
        return false;
    }
    let verdict = world.compare(report);
    matches!(verdict, Verdict::Released)
        && !world.scan_begun()
        && !world.is_tripped()
        && world.ended(Channel::A)
        && world.ended(Channel::B)
}

// Makes a scan at 0 ms with this order of turns. Whether it releases its report.
fn is_run(world: &mut World, report: &mut Report, scan: &Scan, order: &str) -> bool
    requires inputs { length scan.now.ins ≡ world.old.setup.sizes.inputs }
    requires last { world.old.state.last ≡ 0 }
    requires now { scan.now.now ≡ 0 }
    requires outs { length report.old.outs ≡ world.old.setup.sizes.outputs }
    requires diags { length report.old.diags ≡ world.old.setup.sizes.instances }
    ensures setup { world.new.setup ≡ world.old.setup }
    ensures last { world.new.state.last ≡ 0 }
    ensures outs { length report.new.outs ≡ length report.old.outs }
    ensures diags { length report.new.diags ≡ length report.old.diags }
{
    if world.scan_begun() || world.is_tripped() {
        return false;
    }
    world.begin(scan);
    are_made(world, order) && is_released(world, report)
}

// Makes the scan of a row at 0 ms with this order of turns. Whether it shows what the row is to show.
fn is_met(alloc: Global, world: &mut World, report: &mut Report, row: &str, order: &str) -> bool
    requires inputs { world.old.setup.sizes.inputs ≡ 3 }
    requires last { world.old.state.last ≡ 0 }
    requires outs { length report.old.outs ≡ world.old.setup.sizes.outputs }
    requires diags { length report.old.diags ≡ world.old.setup.sizes.instances }
    ensures setup { world.new.setup ≡ world.old.setup }
    ensures last { world.new.state.last ≡ 0 }
    ensures outs { length report.new.outs ≡ length report.old.outs }
    ensures diags { length report.new.diags ≡ length report.old.diags }
{
    let (_, ins, outs, codes) = parts(row);
    let Ok(ins) = bits_of(alloc, ins) else {
        return false;
    };
    if ins.len() != 3 {
        return false;
    }
    is_run(world, report, &Scan { now: 0, ins }, order) && shows(report, outs, codes)
}

// Whether a world at the beginning, of three inputs, meets all rows with this order of turns.
fn meets(alloc: Global, world: &mut World, report: &mut Report, rows: &str, order: &str) -> bool
    requires inputs { world.old.setup.sizes.inputs ≡ 3 }
    requires last { world.old.state.last ≡ 0 }
    requires outs { length report.old.outs ≡ world.old.setup.sizes.outputs }
    requires diags { length report.old.diags ≡ world.old.setup.sizes.instances }
{
    let mut are_so = true;
    for row in rows.lines() {
        are_so = is_met(alloc, world, report, row, order) && are_so;
    }
    are_so
}

// The world of an accepted application, at the beginning. None: out of memory.
#[tactic(auto, using(crate::proofs::Beginnings::is_beginning))]
fn world_of(alloc: Global, app: &App) -> Option<World>
    requires { Accepted app.now }
    ensures { IfSome result (IsBeginning app.now) }
{
    match World::build(alloc, app) {
        Ok(world) => Some(world),
        Err(_) => None,
    }
}

// Whether an application of three inputs meets all rows with this order of turns.
fn are_met(alloc: Global, app: &App, rows: &str, order: &str) -> bool
    requires { Accepted app.now }
{
    let Ok(mut report) = Report::for_app(alloc, app) else {
        return false;
    };
    match world_of(alloc, app) {
        Some(mut world) => {
            app.input_count() == 3 && meets(alloc, &mut world, &mut report, rows, order)
        }
        None => false,
    }
}

// The first of some orders of turns with which an application does not meet all rows; empty: there is none.
fn wrong_order<'a>(alloc: Global, app: &App, rows: &str, orders: &'a str) -> &'a str
    requires { Accepted app.now }
{
    for order in orders.lines() {
        if !are_met(alloc, app, rows, order) {
            return order;
        }
    }
    ""
}

// The same of the application of a text.
fn wrong_order_of<'a>(alloc: Global, text: &str, rows: &str, orders: &'a str) -> &'a str {
    match application(alloc, text) {
        Some(app) => wrong_order(alloc, &app, rows, orders),
        None => orders,
    }
}

// Faults of both channels, for which no call of the program has a fault file, and the line of the first scan, which they
// strike. What A lacks comes before what B lacks, and both before a difference, also where B is struck first. What is
// wrong in both channels alike no comparison can find.
const OF_MOTOR: &str = "\
before 1 turn 17 A memory 5 02
before 1 turn 17 B memory 4 f7
=> 0 TRIP trap A 1 S_Motor=0
--
before 1 turn 17 A memory 5 02
before 1 turn 17 B memory 4 ff
=> 0 TRIP trap A 1 S_Motor=0
--
before 1 turn 17 A memory 5 02
before 1 turn 17 B memory 64 f8
=> 0 TRIP trap A 1 S_Motor=0
--
before 1 turn 17 B memory 4 f7
before 1 turn 17 A memory 5 00
=> 0 TRIP stuck A S_Motor=0
--
before 1 turn 17 A memory 5 00
before 1 turn 17 B memory 4 ff
=> 0 TRIP stuck A S_Motor=0
--
before 1 turn 17 A memory 5 00
before 1 turn 17 B memory 64 f8
=> 0 TRIP stuck A S_Motor=0
--
before 1 turn 17 B memory 4 f7
before 1 turn 17 A memory 77 07
=> 0 TRIP no report A S_Motor=0
--
before 1 turn 17 B memory 4 ff
before 1 turn 17 A memory 77 07
=> 0 TRIP no report A S_Motor=0
--
before 1 turn 17 A memory 77 07
before 1 turn 17 B memory 64 f8
=> 0 TRIP no report A S_Motor=0
--
before 1 turn 17 A memory 77 01
before 1 turn 17 B memory 4 f7
=> 0 TRIP trap B 7 S_Motor=0
--
before 1 turn 17 A memory 81 8002
before 1 turn 17 B memory 4 ff
=> 0 TRIP stuck B S_Motor=0
--
before 1 turn 17 A memory 77 01
before 1 turn 17 B memory 64 f8
=> 0 TRIP no report B S_Motor=0
--
before 1 turn 17 A memory 77 01
before 1 turn 17 B memory 64 fe
=> 0 S_Motor=1 E=1,0,8001
--
before 1 turn 17 A memory 80 01
before 1 turn 17 B memory 67 fe
=> 0 S_Motor=0 E=1,1,8001
--
before 1 turn 17 A memory 81 00
before 1 turn 17 B memory 68 ff
=> 0 S_Motor=0 E=1,0,0001
--
before 1 turn 17 A memory 81 ff
before 1 turn 17 B memory 68 00
=> 0 S_Motor=0 E=1,0,FF01
--
before 1 turn 17 A memory 82 07
before 1 turn 17 B memory 69 f8
=> 0 S_Motor=0 E=1,0,8007
";

const OF_TWO: &str = "\
before 1 turn 23 A memory 84 01
before 1 turn 23 B memory 67 ff
=> 0 TRIP differ 2 S_A=0 S_B=0
--
before 1 turn 23 A memory 85 8002
before 1 turn 23 B memory 72 7ffc
=> 0 TRIP differ 4 S_A=0 S_B=0
--
before 1 turn 23 A memory 77 01
before 1 turn 23 B memory 64 fe
=> 0 S_A=1 S_B=0 E=1,0,8001 F=1,0,8001
";

// The faults of a text, for a world. None: they are refused, or out of memory.
fn faults_of(alloc: Global, world: &World, text: &str) -> Option<Vec<Fault>> {
    let mut files = MemFiles::new(alloc);
    if files.put("F", text.as_bytes()).is_err() {
        return None;
    }
    read_faults_of::<Channel, MemFiles>(alloc, &mut files, "F", &world.sizes(), false).ok()
}

// Whether a first scan with these inputs and faults has this line.
fn says(
    alloc: Global,
    app: &App,
    world: &mut World,
    scan: &Scan,
    faults: &[Fault],
    line: &str,
) -> bool
    requires world { IsBeginning app.now world.old }
    requires inputs { length scan.now.ins ≡ world.old.setup.sizes.inputs }
{
    let Ok(mut report) = Report::for_app(alloc, app) else {
        return false;
    };
    let Ok(mut room) = LineBuffer::for_app(alloc, app) else {
        return false;
    };
    let said = match world.make_scan(scan, faults, &mut report) {
        Verdict::Released => room.report_line(app, 0, &report),
        Verdict::Tripped(cause) => room.trip_line(app, 0, Some(cause)),
        Verdict::Down => room.trip_line(app, 0, None),
    };
    said == line.as_bytes()
}

// Whether a first scan with faults of both channels has this line.
fn has_line(alloc: Global, app: &App, scan: &Scan, faults: &str, line: &str) -> bool
    requires accepted { Accepted app.now }
    requires inputs { length scan.now.ins ≡ input_count app.now }
{
    let Some(mut world) = world_of(alloc, app) else {
        return false;
    };
    match faults_of(alloc, &world, faults) {
        Some(faults) => says(alloc, app, &mut world, scan, faults.as_slice(), line),
        None => false,
    }
}

// The first row of a table that an application does not meet in a first scan; empty: it meets all.
fn wrong_row<'a>(alloc: Global, app: &App, scan: &Scan, rows: &'a str) -> &'a str
    requires accepted { Accepted app.now }
    requires inputs { length scan.now.ins ≡ input_count app.now }
{
    for row in rows.split("--\n") {
        let (faults, line) = row.split_once("=> ").unwrap_or((row, ""));
        if !has_line(alloc, app, scan, faults, line) {
            return row;
        }
    }
    ""
}

// The same of the application of a text in a scan at 0 ms with these inputs.
fn wrong_row_of<'a>(alloc: Global, text: &str, ins: &str, rows: &'a str) -> &'a str {
    let Some(app) = application(alloc, text) else {
        return rows;
    };
    let Ok(ins) = bits_of(alloc, ins) else {
        return rows;
    };
    if ins.len() != app.input_count() as usize {
        return rows;
    }
    wrong_row(alloc, &app, &Scan { now: 0, ins }, rows)
}

#[test]
fn both_channels_struck(rt: HostRuntime) {
    nothing(&rt, wrong_row_of(rt.alloc(), MOTOR, "101", OF_MOTOR));
    nothing(&rt, wrong_row_of(rt.alloc(), TWO, "110", OF_TWO));
}

#[test]
fn orders_of_turns(rt: HostRuntime) {
    nothing(&rt, wrong_order_of(rt.alloc(), MOTOR, USE, ORDERS));
    nothing(&rt, wrong_order_of(rt.alloc(), TWO, STOPS, ORDERS_OF_TWO));
}
