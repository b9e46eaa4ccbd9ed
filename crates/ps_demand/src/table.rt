// What is kept for each signal, one after another.

ghost use Rattle.std.specs.Prelude.{◌≡◌, ◌+◌, ◌≤◌, ◌++◌, length, take, drop};

/// Writes values over those from a place on.
pub fn write_over<T: Drop>(rows: &mut Vec<T>, first: usize, values: Vec<T>)
    requires { first + length values.items ≤ length rows.old.items }
    ensures { rows.new.items ≡ take first rows.old.items ++ (values.items ++ drop (first + length values.items) rows.old.items) }
{
    let mut at = first;
    for value in values {
        rows[at] = value;
        at += 1;
    }
}
