// The line of a refusal.

ghost use Rattle.std.specs.Prelude.{◌≡◌, ◌≤◌, ◌++◌, length};
ghost use Rattle.ps_report.specs.Short.{rule_text, names_column, column_text, refusal_text};

use crate::short::ShortLine;
use ps_base::{Refusal, Rule};

/// A rule's name, as `L3`.
pub fn rule_name(rule: Rule) -> &'static str
    ensures name { result.now ≡ rule_text rule }
    ensures short { length result.now ≤ 3 }
{
    match rule {
        Rule::L1 => "L1",
        Rule::L2 => "L2",
        Rule::L3 => "L3",
        Rule::L4 => "L4",
        Rule::L5 => "L5",
        Rule::P1 => "P1",
        Rule::P2 => "P2",
        Rule::N1 => "N1",
        Rule::N2 => "N2",
        Rule::N3 => "N3",
        Rule::N4 => "N4",
        Rule::N5 => "N5",
        Rule::N6 => "N6",
        Rule::N7 => "N7",
        Rule::N8 => "N8",
        Rule::N9 => "N9",
        Rule::N10 => "N10",
        Rule::N11 => "N11",
        Rule::N12 => "N12",
        Rule::S1 => "S1",
        Rule::S2 => "S2",
        Rule::S3 => "S3",
        Rule::S4 => "S4",
        Rule::C1 => "C1",
        Rule::C2 => "C2",
        Rule::O1 => "O1",
        Rule::O2 => "O2",
        Rule::O3 => "O3",
        Rule::O4 => "O4",
        Rule::O5 => "O5",
        Rule::T1 => "T1",
        Rule::T2 => "T2",
        Rule::T3 => "T3",
        Rule::T4 => "T4",
        Rule::T5 => "T5",
        Rule::T6 => "T6",
        Rule::T7 => "T7",
        Rule::T8 => "T8",
        Rule::T9 => "T9",
        Rule::F1 => "F1",
        Rule::F2 => "F2",
        Rule::F3 => "F3",
        Rule::F4 => "F4",
        Rule::F5 => "F5",
        Rule::M1 => "M1",
        Rule::B1 => "B1",
        Rule::B2 => "B2",
        Rule::B3 => "B3",
        Rule::B4 => "B4",
        Rule::B5 => "B5",
    }
}

// Whether a refusal by this rule names a column beside the line.
fn has_column(rule: Rule) -> bool
    ensures { result ≡ names_column rule }
{
    match rule {
        Rule::C1
        | Rule::C2
        | Rule::O1
        | Rule::O2
        | Rule::O3
        | Rule::O4
        | Rule::O5
        | Rule::T1
        | Rule::T2
        | Rule::T3
        | Rule::T4
        | Rule::T5
        | Rule::T6
        | Rule::T7
        | Rule::T8
        | Rule::T9
        | Rule::F1
        | Rule::F2
        | Rule::F3
        | Rule::F4
        | Rule::F5 => false,
        _ => true,
    }
}

// The column at the end of a line, where the rule names one.
fn put_column(line: &mut ShortLine, refusal: &Refusal)
    requires { length line.old ≤ 60 }
    ensures bytes { line.new ≡ line.old ++ column_text refusal.now }
    ensures short { length line.new ≤ 100 }
{
    if has_column(refusal.rule) {
        line.put(" column ");
        line.put_number(u64::from(refusal.place.column));
    }
}

/// The line of a refusal: `refused L3 line 1 column 1`, or `refused T4 line 4` for the rules C, O, T and F, whose place
/// is a line alone. It takes no memory.
pub fn refusal_line(refusal: &Refusal) -> ShortLine
    ensures { result ≡ refusal_text refusal.now }
{
    let mut line = ShortLine::of("refused ");
    line.put(rule_name(refusal.rule));
    line.put(" line ");
    line.put_number(u64::from(refusal.place.line));
    put_column(&mut line, refusal);
    line.put("\n");
    line
}
