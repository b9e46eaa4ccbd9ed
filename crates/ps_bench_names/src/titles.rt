// What may be the name of a case, or of a rule.

ghost use Rattle.std.specs.Prelude.{◌≡◌};
ghost use Rattle.std.specs.List.{list_all};
ghost use Rattle.std.specs.Str.{chars};
ghost use Rattle.ps_bench_names.specs.Titles.{is_case_name, may_stand};

use std::str;

/// Whether bytes may be the name of a case, or of a rule: UTF-8, of characters that XML can hold and none below 32, and
/// of one byte at least.
pub fn is_case_name(name: &[u8]) -> bool
    ensures { result ≡ is_case_name name.now }
{
    if name.is_empty() {
        return false;
    }
    match str::from_utf8(name) {
        Ok(text) => may_all_stand(text),
        Err(_) => false,
    }
}

// Whether all characters may stand in the name of a case.
fn may_all_stand(text: &str) -> bool
    ensures { result ≡ list_all may_stand (chars text.now) }
{
    text.chars().all(may_stand)
}

fn may_stand(c: char) -> bool
    ensures { result ≡ may_stand c }
{
    c >= ' ' && c != '\u{FFFE}' && c != '\u{FFFF}'
}
