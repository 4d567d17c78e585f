// The numbers of a line.
ghost use Rattle.std.specs.Prelude.{◌≡◌, ℕ, List, IfOk};
ghost use Rattle.script.specs.Reading.{within, numbers_in};
ghost use Rattle.script.specs.Values.{number_in, Adds};

use std::alloc::AllocError;

// Reads a number: 1 to 10 digits that make a number below 2^32.
fn read_number(digits: &[u8]) -> Option<u32>
    ensures { result ≡ number_in digits.now }
{
    if digits.is_empty() || digits.len() > 10 {
        return None;
    }
    let mut value = 0u64;
    for byte in digits {
        if !byte.is_ascii_digit() {
            return None;
        }
        value = 10 * value + u64::from(*byte - b'0');
    }
    u32::try_from(value).ok()
}

// Reads the numbers of a text behind its first space, and adds them to the numbers of the script. False where the text
// has not the form of numbers.
fn read_spaced(text: &[u8], numbers: &mut Vec<u32>) -> Result<bool, AllocError>
    ensures { IfOk result (λ well. Adds well (within 0 0 text.now) numbers.old.items numbers.new.items) }
{
    for digits in text.split(|byte| *byte == b' ') {
        let Some(number) = read_number(digits) else {
            return Ok(false);
        };
        numbers.push(number)?;
    }
    Ok(true)
}

// Reads the numbers of a text, each behind one space.
pub(crate) fn read_numbers(text: &[u8], numbers: &mut Vec<u32>) -> Result<bool, AllocError>
    ensures { IfOk result (λ well. Adds well (numbers_in text.now) numbers.old.items numbers.new.items) }
{
    match text {
        [] => Ok(true),
        [b' ', rest @ ..] => read_spaced(rest, numbers),
        _ => Ok(false),
    }
}
