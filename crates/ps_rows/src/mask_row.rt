// A mask row, the place of a state's rows, and the search for the first of them that fits.

ghost use Rattle.std.specs.Prelude.{◌≡◌, true};
ghost use Rattle.ps_rows.specs.Fitting.{first_fit, first_match};
ghost use Rattle.ps_rows.specs.Placed.{is_placed};

/// One row of a kind's table (profile). It decides in its state where the conditions under `care`
/// equal `value`. Conditions are complemented: a bit that is 1 says FALSE.
#[derive(Clone, Copy)]
pub struct MaskRow {
    /// The DiagCode of the state.
    pub state: u16,
    /// The conditions that the row looks at.
    pub care: u32,
    /// Those of them that are FALSE.
    pub value: u32,
    /// The DiagCode of the next state.
    pub next: u16,
    /// Bit 0: the timer begins anew; bit 1: the mode is latched; other bits are 0.
    pub action: u8,
}

/// Places in a kind's table of rows, from 0: from `from` up to but without `upto`.
#[derive(Clone, Copy)]
pub struct RowRange {
    /// The first place.
    pub from: u16,
    /// The place after the last one.
    pub upto: u16,
}

// The state stays, and its timer runs on.
pub(crate) const STAYS: u8 = 0;

// The timer begins anew.
pub(crate) const ANEW: u8 = 1;

// The mode is latched.
pub(crate) const LATCH: u8 = 2;

// A row: the state, the conditions that are to be TRUE and those that are to be FALSE, the next state
// and the action.
macro_rules! row {
    ($state:expr, $on:expr, $off:expr, $next:expr, $action:expr) => {
        MaskRow {
            state: $state,
            care: $on | $off,
            value: $off,
            next: $next,
            action: $action,
        }
    };
}

pub(crate) use row;

pub(crate) fn range(from: u16, upto: u16) -> RowRange
    ensures { result ≡ record { from = from; upto = upto } }
{
    RowRange { from, upto }
}

// Next state and action of the first row of a state that fits. The range is where the rows of the state
// stand among all of the kind. Each kind calls it with ranges that are written out, so that the compiler
// makes tests of the rows themselves, with no loop.
pub(crate) fn first_in(
    range: RowRange,
    rows: &[MaskRow],
    state: u16,
    conditions: u32,
) -> Option<(u16, u8)>
    requires { is_placed rows.now state range ≡ true }
    ensures { result ≡ first_fit rows.now state conditions }
{
    first_match(&rows[range.from as usize..range.upto as usize], conditions)
}

// Next state and action of the first of these rows, all of one state, whose value equals the
// conditions under its care.
fn first_match(rows: &[MaskRow], conditions: u32) -> Option<(u16, u8)>
    ensures { result ≡ first_match rows.now conditions }
{
    for row in rows {
        if conditions & row.care == row.value {
            return Some((row.next, row.action));
        }
    }
    None
}
