// Operands of rows.

ghost use Rattle.std.specs.Prelude.{◌≡◌, ◌+◌, ◌<◌, ◌≤◌, length};
ghost use Rattle.ps_eqvm.specs.Code.{work, constant_of};
ghost use Rattle.ps_eqvm.specs.Rows.{operand_of};
ghost use Rattle.ps_eqvm.specs.Acting.{byte_of};
ghost use Rattle.ps_eqvm.specs.Finding.{found_of, one_of, IsWithin};

use crate::cells::BitCells;
use crate::layout::WORK_CELLS;
use ps_base::limits::MOST_SIGNALS;

/// The operand that is work cell 0; those of the other work cells follow it.
pub const FIRST_WORK_CELL: u16 = 0xF000;

/// The operand that is the constant FALSE.
pub const FALSE: u16 = 0xFFFE;

/// The operand that is the constant TRUE.
pub const TRUE: u16 = 0xFFFF;

/// What the two bytes of an operand mean (profile). Work cell k is cell k, and the signals are the cells
/// after the work cells.
#[derive(Clone, Copy)]
pub enum Operand {
    /// A work cell or a signal.
    Cell(u16),
    /// The constant FALSE or TRUE.
    Constant(bool),
    /// No operand.
    Bad,
}

/// What a look at an operand finds.
#[derive(Clone, Copy)]
pub enum Found {
    /// The operand is bad.
    Missing,
    /// Its byte is neither 0 nor 1.
    Odd,
    /// Its byte is this truth value.
    Truth(bool),
}

impl Operand {
    /// The operand with a number, among so many signals: 0 to 3,999 is the signal of that number where
    /// there is one, F000 to F02F work cell 0 to 47, FFFE is FALSE and FFFF is TRUE.
    pub fn numbered(signals: u16, number: u16) -> Operand
        ensures operand { result ≡ operand_of signals number }
        ensures within { IsWithin (WORK_CELLS + signals) result }
    {
        if number < signals.min(MOST_SIGNALS) {
            Operand::Cell(WORK_CELLS + number)
        } else if number >= FALSE {
            Operand::Constant(number == TRUE)
        } else if number >= FIRST_WORK_CELL && number < FIRST_WORK_CELL + WORK_CELLS {
            Operand::Cell(number - FIRST_WORK_CELL)
        } else {
            Operand::Bad
        }
    }
}

/// The value of an operand.
pub fn find(cells: &BitCells, operand: Operand) -> Found
    requires { IsWithin (length cells.now) operand }
    ensures { result ≡ found_of (byte_of cells.now operand) }
{
    match operand {
        Operand::Cell(i) => match cells.at(i as usize) {
            None => Found::Odd,
            Some(on) => Found::Truth(on),
        },
        Operand::Constant(on) => Found::Truth(on),
        Operand::Bad => Found::Missing,
    }
}

/// Whether the byte of an operand is 1, and None where the operand is bad.
pub fn is_one(cells: &BitCells, operand: Operand) -> Option<bool>
    requires { IsWithin (length cells.now) operand }
    ensures { result ≡ one_of (byte_of cells.now operand) }
{
    match operand {
        Operand::Cell(i) => Some(cells.is_one(i as usize)),
        Operand::Constant(on) => Some(on),
        Operand::Bad => None,
    }
}

/// The operand that is a work cell.
pub fn work_cell(k: u8) -> u16
    requires { k < WORK_CELLS }
    ensures { result ≡ work k }
{
    FIRST_WORK_CELL + u16::from(k)
}

/// The operand that is a constant.
pub fn constant(on: bool) -> u16
    ensures { result ≡ constant_of on }
{
    if on { TRUE } else { FALSE }
}
