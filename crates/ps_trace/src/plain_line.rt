// The lines of a trace as most of them are: a time where the line begins, and after it values that stand after one
// space each.

ghost use Rattle.std.specs.Prelude.{◌≡◌, ◌≤◌, ◌<◌, ◌+◌, ◌*◌, ◌==◌, IsTrue, length, slice_index, IfSome};
ghost use Rattle.ps_trace.specs.LineSays.{is_pair, spaced, IsNumbered, IsPlain, IsSpacedTo};

// The most digits of a time that is read here. As many always have a value of 32 bits.
const MOST_DIGITS: usize = 9;

// Reads the time of a line, and puts its values, one for each place. None: the line has another form.
pub(crate) fn read_plain(line: &[u8], values: &mut [bool]) -> Option<u32>
    ensures { IfSome result (λ now. IsPlain line.now now values.new) }
{
    let (now, rest) = leading_number(line)?;
    if plain_values(rest, values) {
        Some(now)
    } else {
        None
    }
}

// The number that the digits are with which the bytes begin, at most nine of them, and the bytes after these. None:
// the bytes begin with no digit. Where there are nine bytes, their count is a constant.
fn leading_number(bytes: &[u8]) -> Option<(u32, &[u8])>
    ensures { IfSome result (λ found. IsNumbered bytes.now found.0 found.1.now) }
{
    if bytes.len() >= MOST_DIGITS {
        number_within(bytes, MOST_DIGITS)
    } else {
        number_within(bytes, bytes.len())
    }
}

// The same with at most so many digits.
#[inline(always)]
#[tactic(auto, using(crate::proofs::Numbers::below_nine_digits))]
fn number_within(bytes: &[u8], most: usize) -> Option<(u32, &[u8])>
    requires within { most ≤ length bytes.now }
    requires few { most ≤ MOST_DIGITS }
    ensures { IfSome result (λ found. IsNumbered bytes.now found.0 found.1.now) }
{
    let mut value = 0u32;
    let mut end = 0;
    'digits: while end < most && bytes[end].is_ascii_digit() {
        value = value * 10 + u32::from(bytes[end] - b'0');
        end += 1;
    }
    if end == 0 {
        return None;
    }
    Some((value, &bytes[end..]))
}

// Reads values, one for each place, each after one space, and nothing else. False: the bytes have another form.
fn plain_values(bytes: &[u8], values: &mut [bool]) -> bool
    ensures { IsTrue result → bytes.now ≡ spaced values.new }
{
    if bytes.len() != 2 * values.len() {
        return false;
    }
    let mut at = 0;
    'fours: while values.len() - at >= 4 {
        if !put_four(bytes, values, at) {
            return false;
        }
        at += 4;
    }
    if values.len() - at >= 2 {
        if !put_two(bytes, values, at) {
            return false;
        }
        at += 2;
    }
    at == values.len() || put_one(bytes, values, at)
}

// Puts the values of four pairs from pair `at` on. False: they are none. All bytes are read before a value is put, so
// that the compiler reads and tests them at once.
fn put_four(bytes: &[u8], values: &mut [bool], at: usize) -> bool
    requires places { at + 4 ≤ length values.old }
    requires pairs { 2 * (at + 4) ≤ length bytes.now }
    ensures put { IsTrue result → IsSpacedTo bytes.now at values.old → IsSpacedTo bytes.now (at + 4) values.new }
    ensures size { length values.new ≡ length values.old }
{
    if !(is_pair(bytes, at)
        & is_pair(bytes, at + 1)
        & is_pair(bytes, at + 2)
        & is_pair(bytes, at + 3))
    {
        return false;
    }
    let first = is_one(bytes, at);
    let second = is_one(bytes, at + 1);
    let third = is_one(bytes, at + 2);
    let fourth = is_one(bytes, at + 3);
    values[at] = first;
    values[at + 1] = second;
    values[at + 2] = third;
    values[at + 3] = fourth;
    true
}

// The same of two pairs.
fn put_two(bytes: &[u8], values: &mut [bool], at: usize) -> bool
    requires places { at + 2 ≤ length values.old }
    requires pairs { 2 * (at + 2) ≤ length bytes.now }
    ensures put { IsTrue result → IsSpacedTo bytes.now at values.old → IsSpacedTo bytes.now (at + 2) values.new }
    ensures size { length values.new ≡ length values.old }
{
    if !(is_pair(bytes, at) & is_pair(bytes, at + 1)) {
        return false;
    }
    let first = is_one(bytes, at);
    let second = is_one(bytes, at + 1);
    values[at] = first;
    values[at + 1] = second;
    true
}

// The same of one pair.
fn put_one(bytes: &[u8], values: &mut [bool], at: usize) -> bool
    requires places { at + 1 ≤ length values.old }
    requires pairs { 2 * (at + 1) ≤ length bytes.now }
    ensures put { IsTrue result → IsSpacedTo bytes.now at values.old → IsSpacedTo bytes.now (at + 1) values.new }
    ensures size { length values.new ≡ length values.old }
{
    if !is_pair(bytes, at) {
        return false;
    }
    values[at] = is_one(bytes, at);
    true
}

// Whether pair `at` of these bytes is a space and a value.
fn is_pair(bytes: &[u8], at: usize) -> bool
    requires { 2 * (at + 1) ≤ length bytes.now }
    ensures { result ≡ is_pair (slice_index bytes.now (2 * at)) (slice_index bytes.now (2 * at + 1)) }
{
    let space = bytes[2 * at];
    let value = bytes[2 * at + 1];
    (space == b' ') & ((value == b'0') | (value == b'1'))
}

// Whether the value of pair `at` is TRUE.
fn is_one(bytes: &[u8], at: usize) -> bool
    requires { 2 * (at + 1) ≤ length bytes.now }
    ensures { result ≡ (slice_index bytes.now (2 * at + 1) == 49) }
{
    bytes[2 * at + 1] == b'1'
}
