//! The numbers of a command.

ghost use Rattle.std.specs.Prelude.{◌≡◌, ◌↔◌, IsTrue, decimal};
ghost use Rattle.std.specs.Str.{bytes_eq};
ghost use Rattle.control_text.specs.Commands.{IsBudget, IsPartition};
ghost use Rattle.control_text.specs.Reading.{ReadsDecimal, ReadsNumber};

use itoa::Buffer;

/// Whether a text writes a number in decimal without leading zeros.
fn is_decimal_of(text: &[u8], number: u32) -> bool
    ensures { result ≡ bytes_eq (decimal number) text.now }
{
    let mut buffer = Buffer::new();
    buffer.format(number).as_bytes() == text
}

/// The number that a text writes in decimal without leading zeros, where it has 32 bits.
fn read_decimal(text: &[u8]) -> Option<u32>
    ensures { ReadsDecimal text.now result }
{
    let Ok(digits) = str::from_utf8(text) else {
        return None;
    };
    let Ok(number) = digits.parse::<u32>() else {
        return None;
    };
    if is_decimal_of(text, number) {
        Some(number)
    } else {
        None
    }
}

/// Whether a number is a partition's index.
fn is_partition(number: u32) -> bool
    ensures { IsTrue result ↔ IsPartition number }
{
    number <= 65_535
}

/// The partition's index that a text writes: decimal without leading zeros, up to 65,535.
pub(crate) fn read_partition(text: &[u8]) -> Option<u16>
    ensures { ReadsNumber IsPartition text.now result }
{
    match read_decimal(text) {
        Some(number) => {
            if is_partition(number) {
                Some(number as u16)
            } else {
                None
            }
        }
        None => None,
    }
}

/// Whether a number of 32 bits is a budget.
fn is_budget(number: u32) -> bool
    ensures { IsTrue result ↔ IsBudget number }
{
    1 <= number
}

/// The budget that a text writes: decimal without leading zeros, from 1 to 4,294,967,295.
pub(crate) fn read_budget(text: &[u8]) -> Option<u32>
    ensures { ReadsNumber IsBudget text.now result }
{
    match read_decimal(text) {
        Some(number) => {
            if is_budget(number) {
                Some(number)
            } else {
                None
            }
        }
        None => None,
    }
}
