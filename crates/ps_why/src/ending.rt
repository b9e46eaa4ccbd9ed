// Which ways end a state that stays.

ghost use Rattle.std.specs.Prelude.{◌≡◌};
ghost use Rattle.ps_why.specs.Ending as ending;

use ps_ways::Way;

// The first DiagCode of an error.
const FIRST_ERROR: u16 = 0xC000;

/// Whether a DiagCode is that of an error.
pub fn is_error(code: u16) -> bool
    ensures { result ≡ ending.is_error code }
{
    code >= FIRST_ERROR
}

/// Whether a way ends a state, of which it is known whether it has ways to errors alone: it leads to a state that is no
/// error; or to any, where the state has ways to errors alone.
pub fn is_end(state: u16, to_errors_alone: bool, way: &Way) -> bool
    ensures { result ≡ ending.is_end state to_errors_alone way.now }
{
    way.state == state && (!is_error(way.next) || to_errors_alone)
}
