//! What a row does, by its first byte.

ghost use Rattle.std.specs.Prelude.{◌≡◌, ◌≢◌, IfSome, IfNone};
ghost use Rattle.ps_eqvm.specs.Opcodes.{byte_of_opcode};
ghost use Rattle.ps_eqvm.specs.declared.opcode.Opcode.{Opcode};

/// How a row gives its target the value of an operand.
#[derive(Clone, Copy)]
pub enum Gate {
    /// SET: the target becomes the value.
    Set,
    /// ALL: the target becomes its AND with the value.
    All,
    /// ANY: the target becomes its OR with the value.
    Any,
}

/// What a row does (profile).
#[derive(Clone, Copy)]
pub enum Opcode {
    /// LAST: the scan ends.
    Last,
    /// SET, ALL or ANY: a target is given the value of an operand.
    Target(Gate),
    /// BLOCK: an instance is stepped.
    Block,
}

impl Opcode {
    /// The byte that its rows begin with, from F0 for LAST to F4 for BLOCK.
    pub fn byte(self) -> u8
        ensures { result ≡ byte_of_opcode self }
    {
        match self {
            Opcode::Last => 0xF0,
            Opcode::Target(Gate::Set) => 0xF1,
            Opcode::Target(Gate::All) => 0xF2,
            Opcode::Target(Gate::Any) => 0xF3,
            Opcode::Block => 0xF4,
        }
    }

    /// What a row that begins with this byte does, and None exactly where no row does.
    pub fn of(byte: u8) -> Option<Opcode>
        ensures some { IfSome result (λ opcode. byte_of_opcode opcode ≡ byte) }
        ensures none { IfNone result ((opcode : Opcode) → byte_of_opcode opcode ≢ byte) }
    {
        match byte {
            0xF0 => Some(Opcode::Last),
            0xF1 => Some(Opcode::Target(Gate::Set)),
            0xF2 => Some(Opcode::Target(Gate::All)),
            0xF3 => Some(Opcode::Target(Gate::Any)),
            0xF4 => Some(Opcode::Block),
            _ => None,
        }
    }
}
