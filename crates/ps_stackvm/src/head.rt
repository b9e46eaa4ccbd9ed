// The head of the cells, kept apart.

ghost use Rattle.std.specs.Prelude.{◌≡◌, ◌≢◌, ◌≤◌, ◌<◌, ◌^◌, true, false, length};
ghost use Rattle.ps_stackvm.specs.Cells.{progress_of, trapped, with_head};

use crate::cells::{pc, set_pc, trap};
use crate::layout::{HEIGHT_AT, PROGRESS_AT, SIGNALS_AT};
use crate::trap::Trap;

// The head of the cells: where the next instruction stands in the code, and the height of the stack. A run of turns
// keeps it apart, and writes it to its bytes when it ends. Whether the scan has ended stands in the progress byte as
// well.
#[derive(Clone, Copy)]
pub(crate) struct Head {
    pub pc: usize,
    pub height: usize,
    pub ended: bool,
    ghost fits: { pc < 2 ^ 32 },
    ghost byte: { height < 256 },
}

impl Head {
    // The head that the cells have.
    pub(crate) fn of(cells: &[u8]) -> Head
        requires { SIGNALS_AT ≤ length cells.now }
        ensures head { with_head result.pc result.height cells.now ≡ cells.now }
        ensures runs { result.ended ≡ false → progress_of cells.now ≡ 0 }
        ensures ended { result.ended ≡ true → progress_of cells.now ≢ 0 }
    {
        Head {
            pc: pc(cells) as usize,
            height: cells[HEIGHT_AT] as usize,
            ended: cells[PROGRESS_AT] != 0,
        }
    }

    // Writes it to its bytes.
    pub(crate) fn write(self, cells: &mut [u8])
        requires { SIGNALS_AT ≤ length cells.old }
        ensures { cells.new ≡ with_head self.pc self.height cells.old }
    {
        cells[HEIGHT_AT] = self.height as u8;
        set_pc(cells, self.pc as u32);
    }
}

// Marks a trap. The place and the height stay.
pub(crate) fn stop(cells: &mut [u8], head: Head, reason: Trap) -> Head
    requires { SIGNALS_AT ≤ length cells.old }
    ensures cells { with_head result.pc result.height cells.new ≡ trapped reason (with_head head.pc head.height cells.old) }
    ensures ended { result.ended ≡ true }
    ensures marked { progress_of cells.new ≢ 0 }
{
    trap(cells, reason);
    Head {
        pc: head.pc,
        height: head.height,
        ended: true,
    }
}
