// Reading an instruction from the code.

ghost use Rattle.std.specs.Prelude.{◌≡◌, ◌+◌, ◌<◌, ◌≤◌, ◌^◌, length, slice_index};
ghost use Rattle.ps_machine.specs.Bytes.{be2, be4};
ghost use Rattle.ps_stackvm.specs.Instructions.{fetched};

use crate::cells::number_at;
use crate::instruction::{AND, CALL, CONST, END, Instruction, LOAD, OR, STORE};
use crate::trap::Trap;

// A CALL with its operands.
fn call_at(code: &[u8], pc: usize) -> Instruction
    requires { pc + 10 ≤ length code.now }
    ensures { result ≡ Instruction.Call (be2 code.now (pc + 1)) (slice_index code.now (pc + 3)) (be2 code.now (pc + 4)) (be4 code.now (pc + 6)) }
{
    let limit = [code[pc + 6], code[pc + 7], code[pc + 8], code[pc + 9]];
    Instruction::Call {
        instance: number_at(code, pc + 1),
        kind: code[pc + 3],
        first: number_at(code, pc + 4),
        limit: u32::from_be_bytes(limit),
    }
}

// The instruction at a place of the code that the longest instruction but CALL fits after. A CALL is tested by itself.
fn fetch_inside(code: &[u8], pc: usize) -> Result<Instruction, Trap>
    requires { pc + 3 ≤ length code.now }
    ensures { result ≡ fetched code.now pc }
{
    match code[pc] {
        LOAD => Ok(Instruction::Load(number_at(code, pc + 1))),
        STORE => Ok(Instruction::Store(number_at(code, pc + 1))),
        CONST => Ok(Instruction::Const(code[pc + 1])),
        AND => Ok(Instruction::And),
        OR => Ok(Instruction::Or),
        CALL if code.len() - pc >= 10 => Ok(call_at(code, pc)),
        CALL => Err(Trap::CodeEnd),
        END => Ok(Instruction::End),
        _ => Err(Trap::NoOpcode),
    }
}

// The instruction at one of the last two places of the code, or past its end.
fn fetch_at_end(code: &[u8], pc: usize) -> Result<Instruction, Trap>
    requires near { length code.now < pc + 3 }
    requires short { length code.now < 2 ^ 32 }
    ensures { result ≡ fetched code.now pc }
{
    if pc >= code.len() {
        return Err(Trap::CodeEnd);
    }
    match code[pc] {
        CONST if code.len() - pc >= 2 => Ok(Instruction::Const(code[pc + 1])),
        AND => Ok(Instruction::And),
        OR => Ok(Instruction::Or),
        END => Ok(Instruction::End),
        LOAD..=END => Err(Trap::CodeEnd),
        _ => Err(Trap::NoOpcode),
    }
}

// The instruction at a place of the code, or the trap that reading it gives. One test says for almost all places that
// the whole instruction is there.
pub(crate) fn fetch(code: &[u8], pc: usize) -> Result<Instruction, Trap>
    requires short { length code.now < 2 ^ 32 }
    requires fits { pc < 2 ^ 32 }
    ensures { result ≡ fetched code.now pc }
{
    if pc < code.len().saturating_sub(2) {
        fetch_inside(code, pc)
    } else {
        fetch_at_end(code, pc)
    }
}
