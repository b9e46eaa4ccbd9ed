// What a wire has in a scan.

ghost use Rattle.std.specs.Prelude.{◌≡◌, ◌≤◌, ◌||◌, IfSome, is_some, length, not};
ghost use Rattle.ps_bench_waves.specs.declared.value.TheConstants.{LONGEST_WORDS};
ghost use Rattle.ps_bench_waves.specs.Values.{held, is_same, shortened};

/// The most bytes of words that are written: what is longer is cut there.
pub const LONGEST_WORDS: usize = 64;

/// What a wire has in a scan.
#[derive(Clone, Copy)]
pub enum Value {
    /// TRUE or FALSE.
    Bit(bool),
    /// Sixteen bits, as a DiagCode.
    Code(u16),
    /// A count, of 64 bits.
    Count(u64),
    /// Words, of which the first 64 bytes count. A reader gives them back where they are printable ASCII without `\`.
    Words(&'static str),
}

/// The bytes of words that are written: the first 64.
#[tactic(auto, using(std::proofs::lemmas::List::take_min))]
pub fn shortened(words: &str) -> &[u8]
    ensures bytes { result.now ≡ shortened words.now }
    ensures len { length result.now ≤ LONGEST_WORDS }
{
    let bytes = words.as_bytes();
    &bytes[..LONGEST_WORDS.min(bytes.len())]
}

// Whether two values are written alike.
fn is_same(a: Value, b: Value) -> bool
    ensures { result ≡ is_same (held a) (held b) }
{
    match (a, b) {
        (Value::Bit(a), Value::Bit(b)) => a == b,
        (Value::Code(a), Value::Code(b)) => a == b,
        (Value::Count(a), Value::Count(b)) => a == b,
        (Value::Words(a), Value::Words(b)) => shortened(a) == shortened(b),
        _ => false,
    }
}

/// What is written of a wire that had the one value and has the other: the other one, in any case (`all`) or where it
/// differs from the first. None: nothing is written of it.
pub fn written(all: bool, before: Value, value: Value) -> Option<Value>
    ensures changed { is_some result ≡ (all || not (is_same (held before) (held value))) }
    ensures value { IfSome result (λ told. held told ≡ held value) }
{
    if all || !is_same(before, value) {
        Some(value)
    } else {
        None
    }
}
