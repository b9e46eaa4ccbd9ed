// Statements by their lines.

ghost use Rattle.std.specs.Prelude.{◌≡◌};
ghost use Rattle.ps_bench_test.specs.Placing.{from_line};

use ps_bench_cases::Statement;
use ps_bench_judge::is_from;

/// The statements from a line on, where they stand in the order of their lines. It takes no memory.
pub fn from_line(statements: &[Statement], line: u32) -> &[Statement]
    ensures { result.now ≡ from_line line statements.now }
{
    let mut rest = statements;
    'lines: while let [first, others @ ..] = rest {
        if is_from(line, first.line) {
            return rest;
        }
        rest = others;
    }
    rest
}
