// Why a log has no answer.

/// A column that a log is asked for.
#[derive(Clone, Copy)]
pub enum Column {
    /// `@time`, or `time` where there is no `@time`: the time of each scan in ms.
    Time,
    /// `@restart`: 1 in a scan that is the first after a restart. A log may be without it.
    Restart,
    /// The input of this number, in order of declaration, counted from 0: its value in each scan.
    Input(u16),
}

/// What a line of a log is refused for.
#[derive(Clone, Copy)]
pub enum Flaw {
    /// The form: a quotation mark within a field, a field that is not closed in its line, other fields than the header
    /// has, a column that stands twice, a line that is too long, or no header.
    V1,
    /// The header has no such column.
    V2(Column),
    /// A value that is none of 0, 1, TRUE and FALSE, or a time that is no number of ms in 32 bits.
    V3,
    /// A time that is less than that of the scan before.
    V4,
}

impl Flaw {
    ghost use Rattle.std.specs.Prelude.{◌≡◌};
    ghost use Rattle.ps_bench_logs.specs.Log.{rank};

    /// The number of the rule that the line breaks, from 1 to 4.
    pub fn number(self) -> u8
        ensures { result ≡ rank self }
    {
        match self {
            Flaw::V1 => 1,
            Flaw::V2(_) => 2,
            Flaw::V3 => 3,
            Flaw::V4 => 4,
        }
    }
}

/// A log is refused: for this, at this line, counted from 1.
#[derive(Clone, Copy)]
pub struct LogRefusal {
    /// What the line is refused for.
    pub flaw: Flaw,
    /// The line.
    pub line: u32,
}
