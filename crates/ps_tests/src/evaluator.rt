// The plain evaluator over worked tables.

ghost use Rattle.std.specs.Prelude.{◌≡◌, length};
ghost use Rattle.ps_model.specs.Network.{instance_count};
ghost use Rattle.ps_scan.specs.Cells.{IsFor};

use crate::application::{MOTOR, application, repeated};
use crate::fixtures::{bits_of, nothing, parts, shows};
use crate::worked::{OF_MOTOR, OTHERS};
use ps_model::{App, Report};
use ps_scan::Scanner;
use std::alloc::Global;

// Makes the scan of a row. Whether it shows what the row is to show.
fn row_met(alloc: Global, app: &App, scanner: &mut Scanner, report: &mut Report, row: &str) -> bool
    requires sizes { IsFor app.now scanner.old }
    requires outs { length report.old.outs ≡ length app.now.outputs }
    requires diags { length report.old.diags ≡ instance_count app.now }
    ensures sizes { IsFor app.now scanner.new }
    ensures outs { length report.new.outs ≡ length app.now.outputs }
    ensures diags { length report.new.diags ≡ instance_count app.now }
{
    let (now, ins, outs, codes) = parts(row);
    let Ok(now) = now.parse::<u32>() else {
        return false;
    };
    let Ok(ins) = bits_of(alloc, ins) else {
        return false;
    };
    if ins.len() != app.input_count() as usize {
        return false;
    }
    scanner.scan(app, now, ins.as_slice(), report);
    shows(report, outs, codes)
}

// Whether an application meets all rows of a table, one after the other from the start. The first line of a table is its
// name.
fn table_met(alloc: Global, app: &App, table: &str) -> bool {
    let Ok(mut scanner) = Scanner::new(alloc, app) else {
        return false;
    };
    let Ok(mut report) = Report::for_app(alloc, app) else {
        return false;
    };
    let Some((_, rows)) = table.split_once('\n') else {
        return false;
    };
    let mut are_met = true;
    for row in rows.lines() {
        are_met = row_met(alloc, app, &mut scanner, &mut report, row) && are_met;
    }
    are_met
}

// The first of some tables that an application does not meet; empty: it meets all. Between two tables is an empty line.
fn wrong_table<'a>(alloc: Global, app: &App, tables: &'a str) -> &'a str {
    for table in tables.split("\n\n") {
        if !table_met(alloc, app, table) {
            return table;
        }
    }
    ""
}

// The first of some tables that the application of a text does not meet; empty: it meets all.
fn wrong_of<'a>(alloc: Global, text: &str, tables: &'a str) -> &'a str {
    match application(alloc, text) {
        Some(app) => wrong_table(alloc, &app, tables),
        None => tables,
    }
}

// The first of the tables after some texts that is not met; empty: all are met.
fn wrong_other(alloc: Global, others: &'static str) -> &'static str {
    for other in others.split("====\n") {
        let (text, tables) = other.split_once("\n\n").unwrap_or((other, other));
        let wrong = wrong_of(alloc, text, tables);
        if !wrong.is_empty() {
            return wrong;
        }
    }
    ""
}

// What stands before the first operand of an AND of 512 operands, and after the last.
const BEFORE_WIDE: &str =
    "PROGRAM W VAR_INPUT a : BOOL; END_VAR VAR_OUTPUT o : BOOL; END_VAR o := a";

const AFTER_WIDE: &str = "; END_PROGRAM";

const WIDE: &str = "\
512 operands
0 0 0
10 1 1
";

// The same of the AND of 512 operands.
fn wrong_of_wide(alloc: Global) -> &'static str {
    match repeated(alloc, BEFORE_WIDE, " AND a", 511, AFTER_WIDE) {
        Some(text) => wrong_of(alloc, text.as_str(), WIDE),
        None => WIDE,
    }
}

#[test]
fn evaluator(rt: HostRuntime) {
    nothing(&rt, wrong_of(rt.alloc(), MOTOR, OF_MOTOR));
    nothing(&rt, wrong_other(rt.alloc(), OTHERS));
    nothing(&rt, wrong_of_wide(rt.alloc()));
}
