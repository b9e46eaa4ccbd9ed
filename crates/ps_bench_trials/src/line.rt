// The counts of a line.

ghost use Rattle.std.specs.Prelude.{◌≡◌, ◌≤◌, ◌<◌, count_by, length, nat_le};
ghost use Rattle.ps_bench_trials.specs.Lines.{added_line, added_table, column_of, counted_in, more, with_latency};

/// The least latency of each column of a table of latencies, in ms: 0, 1, 2 to 3, 4 to 7, and so on.
pub const FLOORS: [u32; 33] = [
    0,
    1,
    2,
    4,
    8,
    16,
    32,
    64,
    128,
    256,
    512,
    1024,
    2048,
    4096,
    8192,
    16384,
    32768,
    65536,
    131_072,
    262_144,
    524_288,
    1_048_576,
    2_097_152,
    4_194_304,
    8_388_608,
    16_777_216,
    33_554_432,
    67_108_864,
    134_217_728,
    268_435_456,
    536_870_912,
    1_073_741_824,
    2_147_483_648,
];

/// The counts of the trials of one channel, region and outcome. Each count stays at its largest value.
#[derive(Clone, Copy)]
pub struct Line {
    /// How many trials there were.
    pub count: u64,
    /// The latencies of all trips together, in ms.
    pub sum: u64,
    /// The largest latency of a trip, in ms.
    pub largest: u32,
    /// How many trips have a latency of each column.
    pub table: [u64; 33],
}

// How many floors are not above a latency.
fn floors_upto(floors: &[u32], latency: u32) -> usize
    ensures count { result ≡ count_by (λ floor. nat_le floor latency) floors.now }
    ensures most { result ≤ length floors.now }
{
    floors.iter().filter(|floor| **floor <= latency).count()
}

// The column of a latency.
#[tactic(auto, unfolding(crate::specs::Lines::column_of))]
pub(crate) fn column_of(latency: u32) -> usize
    ensures column { result ≡ column_of latency }
    ensures few { result < 33 }
{
    floors_upto(&FLOORS, latency).saturating_sub(1)
}

// Two counts together, up to the largest value.
fn more(count: u64, by: u64) -> u64
    ensures { result ≡ more count by }
{
    count.saturating_add(by)
}

// Adds another table to one, column by column.
fn add_table(table: &mut [u64], other: &[u64])
    requires table { length table.old ≡ 33 }
    requires other { length other.now ≡ 33 }
    ensures { table.new ≡ added_table table.old other.now }
{
    for column in 0..33 {
        table[column] = more(table[column], other[column]);
    }
}

impl Line {
    /// No trial.
    pub const NONE: Line = Line {
        count: 0,
        sum: 0,
        largest: 0,
        table: [0; 33],
    };

    /// The two lines together.
    pub fn with_line(self, other: &Line) -> Line
        ensures { result ≡ added_line self other.now }
    {
        let mut table = self.table;
        add_table(&mut table, &other.table);
        Line {
            count: more(self.count, other.count),
            sum: more(self.sum, other.sum),
            largest: self.largest.max(other.largest),
            table,
        }
    }

    // The line with a trip of this latency more, whose trial is counted.
    fn with_latency(self, latency: u32) -> Line
        ensures { result ≡ with_latency self latency }
    {
        let column = column_of(latency);
        let mut table = self.table;
        table[column] = more(table[column], 1);
        Line {
            count: self.count,
            sum: more(self.sum, u64::from(latency)),
            largest: self.largest.max(latency),
            table,
        }
    }

    /// The line with a trial more, which has this latency if it tripped.
    pub fn counted(self, latency: Option<u32>) -> Line
        ensures { result ≡ counted_in self latency }
    {
        let line = Line {
            count: more(self.count, 1),
            ..self
        };
        match latency {
            Some(latency) => line.with_latency(latency),
            None => line,
        }
    }
}
