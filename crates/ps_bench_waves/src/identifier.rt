// The identifiers of wires.

ghost use Rattle.std.specs.Prelude.{◌≡◌, ◌<◌, ◌≤◌, ◌+◌, length};
ghost use Rattle.ps_bench_waves.specs.Identifiers.{identifier};

use std::marker::Model;

/// The most wires: there are as many identifiers of up to three characters.
pub const MOST_WIRES: usize = 830_584;

// The printable characters of ASCII but the blank, from `!` to `~`.
const CHARACTERS: usize = 94;

/// The identifier of a wire in a dump, of one to three printable characters. Contracts see its bytes.
#[derive(Drop)]
pub struct Identifier {
    bytes: [u8; 3],
    len: usize,
}

impl Model for Identifier {
    ghost use Rattle.std.specs.Prelude.{List, ℕ, take, ◌≤◌};

    ghost Value = { List ℕ };

    ghost view = { λ i. take i.len i.bytes };

    ghost invariant = { λ i. i.len ≤ 3 };
}

impl Identifier {
    /// The identifier of the wire with this number, below `MOST_WIRES`.
    pub fn of(wire: usize) -> Identifier
        requires { wire < MOST_WIRES }
        ensures bytes { result ≡ identifier wire }
        ensures len { length result ≤ 3 }
    {
        let last = character(wire % CHARACTERS);
        if wire < CHARACTERS {
            return Identifier {
                bytes: [last, 0, 0],
                len: 1,
            };
        }
        let before = character(wire / CHARACTERS % CHARACTERS);
        if wire < CHARACTERS * CHARACTERS {
            return Identifier {
                bytes: [before, last, 0],
                len: 2,
            };
        }
        let first = character(wire / CHARACTERS / CHARACTERS);
        Identifier {
            bytes: [first, before, last],
            len: 3,
        }
    }

    /// Its bytes.
    pub fn as_slice(&self) -> &[u8]
        ensures { result.now ≡ self.now }
    {
        &self.bytes[..self.len]
    }
}

// The printable character of this number.
fn character(number: usize) -> u8
    requires { number < 94 }
    ensures { result ≡ 33 + number }
{
    b'!' + number as u8
}
