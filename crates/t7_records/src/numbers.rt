//! Plain decimals.

ghost use Rattle.std.specs.Prelude.{◌≡◌, ◌≤◌, Some, None, IfSome, if◌then◌else◌};
ghost use Rattle.std.specs.List.{list_all};
ghost use Rattle.std.specs.Char.{is_ascii_digit};
ghost use Rattle.t7_records.specs.Numbers.{is_decimal as plain, is_decimal_to, number_to, value_of};

// Whether each byte is a digit.
fn are_digits(cell: &[u8]) -> bool
    ensures { result ≡ list_all is_ascii_digit cell.now }
{
    cell.iter().all(|digit| digit.is_ascii_digit())
}

// Whether a cell is a plain decimal.
fn is_plain(cell: &[u8]) -> bool
    ensures { result ≡ plain cell.now }
{
    if cell.is_empty() || !are_digits(cell) {
        return false;
    }
    cell.len() == 1 || cell[0] != b'0'
}

/// The number that a cell spells as a plain decimal, where it is at most this.
#[tactic(auto, unfolding(crate::specs::Numbers::is_decimal_to), using(crate::proofs::DecimalFacts::value_rises))]
pub fn decimal(cell: &[u8], most: u64) -> Option<u64>
    ensures value { result ≡ (if is_decimal_to most cell.now then Some (value_of cell.now) else None) }
    ensures limit { IfSome result (λ n. n ≤ most) }
{
    if !is_plain(cell) {
        return None;
    }
    let mut number = 0u64;
    for digit in cell {
        let next = 10 * number as u128 + digit.saturating_sub(b'0') as u128;
        if next > most as u128 {
            return None;
        }
        number = next as u64;
    }
    Some(number)
}

/// Whether a cell is a plain decimal that is at most this.
pub fn is_decimal(cell: &[u8], most: u64) -> bool
    ensures { result ≡ is_decimal_to most cell.now }
{
    match decimal(cell, most) {
        Some(_) => true,
        None => false,
    }
}

/// The number that a plain decimal up to a limit spells, and 0 for any other cell.
pub fn number(cell: &[u8], most: u64) -> u64
    ensures value { result ≡ number_to most cell.now }
    ensures limit { result ≤ most }
{
    match decimal(cell, most) {
        Some(number) => number,
        None => 0,
    }
}
