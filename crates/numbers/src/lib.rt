// Rows of numbers: the number at a place.
#![tactic(auto)]

ghost use Rattle.std.specs.Prelude.{◌≡◌, get_or};

// The number at a place of a row, 0 past its end.
pub fn number_at(row: &[u32], at: usize) -> u32
    ensures { result ≡ get_or row.now at 0 }
{
    row.get(at).copied().unwrap_or(0)
}
