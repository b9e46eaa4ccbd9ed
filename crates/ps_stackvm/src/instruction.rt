// Instructions of stack code.

ghost use Rattle.std.specs.Prelude.{◌≡◌, ◌∷◌, ◌++◌, [], OnOk};
ghost use Rattle.std.specs.Int.{to_be_bytes, w16};
ghost use Rattle.ps_stackvm.specs.Instructions.{size_of};
ghost use Rattle.ps_stackvm.specs.Code.{encoded};

use ps_base::Memory;

// The opcodes.
pub(crate) const LOAD: u8 = 1;

pub(crate) const STORE: u8 = 2;

pub(crate) const CONST: u8 = 3;

pub(crate) const AND: u8 = 4;

pub(crate) const OR: u8 = 5;

pub(crate) const CALL: u8 = 6;

pub(crate) const END: u8 = 7;

/// An instruction of stack code (profile). In code each begins with its opcode, from 1 for LOAD to 7 for
/// END, and numbers are big-endian.
#[derive(Clone, Copy)]
pub enum Instruction {
    /// Pushes the byte of this signal.
    Load(u16),
    /// Pops a byte into the byte of this signal.
    Store(u16),
    /// Pushes this byte.
    Const(u8),
    /// Pops two bytes and pushes their AND.
    And,
    /// Pops two bytes and pushes their OR.
    Or,
    /// Steps this instance as the kind with this number, with this limit in ms. Its Boolean pins are popped,
    /// pin 0 lowest on the stack, and its outputs are written from the signal `first` on.
    Call {
        instance: u16,
        kind: u8,
        first: u16,
        limit: u32,
    },
    /// Ends the scan.
    End,
}

impl Instruction {
    /// How many bytes it has in code, its opcode among them: from 1 to 10.
    pub fn size(self) -> u8
        ensures { result ≡ size_of self }
    {
        match self {
            Instruction::Load(_) | Instruction::Store(_) => 3,
            Instruction::Const(_) => 2,
            Instruction::Call { .. } => 10,
            Instruction::And | Instruction::Or | Instruction::End => 1,
        }
    }

    /// Writes it after the code that stands: its opcode, and its numbers big-endian.
    pub fn write(self, code: &mut Vec<u8>) -> Result<(), Memory>
        ensures { OnOk result (code.new.items ≡ code.old.items ++ encoded self) }
    {
        match self {
            Instruction::Load(signal) => write_wide(code, LOAD, signal),
            Instruction::Store(signal) => write_wide(code, STORE, signal),
            Instruction::Const(byte) => write_two(code, CONST, byte),
            Instruction::And => write_byte(code, AND),
            Instruction::Or => write_byte(code, OR),
            Instruction::Call {
                instance,
                kind,
                first,
                limit,
            } => write_call(code, instance, kind, first, limit),
            Instruction::End => write_byte(code, END),
        }
    }
}

// An opcode alone.
fn write_byte(code: &mut Vec<u8>, opcode: u8) -> Result<(), Memory>
    ensures { OnOk result (code.new.items ≡ code.old.items ++ opcode ∷ []) }
{
    code.push(opcode)?;
    Ok(())
}

// An opcode and a byte.
fn write_two(code: &mut Vec<u8>, opcode: u8, byte: u8) -> Result<(), Memory>
    ensures { OnOk result (code.new.items ≡ code.old.items ++ opcode ∷ byte ∷ []) }
{
    code.push(opcode)?;
    code.push(byte)?;
    Ok(())
}

// An opcode and a number of two bytes.
fn write_wide(code: &mut Vec<u8>, opcode: u8, number: u16) -> Result<(), Memory>
    ensures { OnOk result (code.new.items ≡ code.old.items ++ opcode ∷ to_be_bytes w16 number) }
{
    code.push(opcode)?;
    code.extend_from_slice(&number.to_be_bytes())?;
    Ok(())
}

// CALL.
fn write_call(
    code: &mut Vec<u8>,
    instance: u16,
    kind: u8,
    first: u16,
    limit: u32,
) -> Result<(), Memory>
    ensures { OnOk result (code.new.items ≡ code.old.items ++ encoded (Instruction.Call instance kind first limit)) }
{
    code.push(CALL)?;
    code.extend_from_slice(&instance.to_be_bytes())?;
    code.push(kind)?;
    code.extend_from_slice(&first.to_be_bytes())?;
    code.extend_from_slice(&limit.to_be_bytes())?;
    Ok(())
}
