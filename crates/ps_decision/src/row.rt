// Rows of decision code.

ghost use Rattle.std.specs.Prelude.{◌≡◌, ◌∷◌, ◌++◌, [], OnOk};
ghost use Rattle.ps_decision.specs.Rows.{size_of, encoded};

use ps_base::Memory;

// The opcodes.
pub(crate) const DECIDE: u8 = 1;

pub(crate) const SET: u8 = 2;

pub(crate) const CALL: u8 = 3;

pub(crate) const END: u8 = 4;

/// A row of decision code (profile). In code each begins with its opcode, from 1 for DECIDE to 4 for END, and numbers
/// are big-endian. An operand names a pin cell or a signal; a place is an offset in the code.
#[derive(Clone, Copy)]
pub enum Row {
    /// Goes on at the place `yes_at` where the byte of this operand is 1, and at the place `no_at` where it is 0.
    Decide {
        operand: u16,
        yes_at: u32,
        no_at: u32,
    },
    /// Writes this byte to the target and goes on at the place `next`.
    Set {
        target: u16,
        byte: u8,
        next: u32,
    },
    /// Steps this instance as the kind with this number, with this limit in ms. Its Boolean pins are the pin cells, and
    /// its outputs are written from the signal `first` on. The row after it follows.
    Call {
        instance: u16,
        kind: u8,
        first: u16,
        limit: u32,
    },
    /// Ends the scan.
    End,
}

impl Row {
    /// How many bytes it has in code, its opcode among them: from 1 to 11.
    pub fn size(self) -> u8
        ensures { result ≡ size_of self }
    {
        match self {
            Row::Decide { .. } => 11,
            Row::Set { .. } => 8,
            Row::Call { .. } => 10,
            Row::End => 1,
        }
    }

    /// Writes it after the code that stands: its opcode, and its numbers big-endian.
    pub fn write(self, code: &mut Vec<u8>) -> Result<(), Memory>
        ensures { OnOk result (code.new.items ≡ code.old.items ++ encoded self) }
    {
        match self {
            Row::Decide {
                operand,
                yes_at,
                no_at,
            } => write_decide(code, operand, yes_at, no_at),
            Row::Set { target, byte, next } => write_set(code, target, byte, next),
            Row::Call {
                instance,
                kind,
                first,
                limit,
            } => write_call(code, instance, kind, first, limit),
            Row::End => {
                code.push(END)?;
                Ok(())
            }
        }
    }
}

// DECIDE.
fn write_decide(code: &mut Vec<u8>, operand: u16, yes_at: u32, no_at: u32) -> Result<(), Memory>
    ensures { OnOk result (code.new.items ≡ code.old.items ++ encoded (Row.Decide operand yes_at no_at)) }
{
    code.push(DECIDE)?;
    code.extend_from_slice(&operand.to_be_bytes())?;
    code.extend_from_slice(&yes_at.to_be_bytes())?;
    code.extend_from_slice(&no_at.to_be_bytes())?;
    Ok(())
}

// SET.
fn write_set(code: &mut Vec<u8>, target: u16, byte: u8, next: u32) -> Result<(), Memory>
    ensures { OnOk result (code.new.items ≡ code.old.items ++ encoded (Row.Set target byte next)) }
{
    code.push(SET)?;
    code.extend_from_slice(&target.to_be_bytes())?;
    code.push(byte)?;
    code.extend_from_slice(&next.to_be_bytes())?;
    Ok(())
}

// CALL.
fn write_call(
    code: &mut Vec<u8>,
    instance: u16,
    kind: u8,
    first: u16,
    limit: u32,
) -> Result<(), Memory>
    ensures { OnOk result (code.new.items ≡ code.old.items ++ encoded (Row.Call instance kind first limit)) }
{
    code.push(CALL)?;
    code.extend_from_slice(&instance.to_be_bytes())?;
    code.push(kind)?;
    code.extend_from_slice(&first.to_be_bytes())?;
    code.extend_from_slice(&limit.to_be_bytes())?;
    Ok(())
}
