//! Octets and numbers as reports print them.
ghost use Rattle.std.specs.Prelude.{◌≡◌, ◌<◌, ◌++◌, ◌∷◌, [], OnOk, decimal};
ghost use Rattle.nntp_printing.specs.Printing.{escaped, escaped_octet, hexadecimal_digit};

use itoa::Buffer;
use std::alloc::{AllocError, Allocator};

/// Adds a label and a number, in decimal.
///
/// # Errors
///
/// `AllocError` where memory is refused.
pub fn put_number<A: Allocator + Copy>(
    text: &mut Vec<u8, A>,
    label: &[u8],
    number: u64,
) -> Result<(), AllocError>
    ensures { OnOk result (text.new.items ≡ text.old.items ++ label.now ++ decimal number) }
{
    let mut buffer = Buffer::new();
    text.extend_from_slice(label)?;
    text.extend_from_slice(buffer.format(number).as_bytes())
}

/// Adds a label and a number that was counted over several sessions, in decimal.
///
/// # Errors
///
/// `AllocError` where memory is refused.
pub fn put_sum<A: Allocator + Copy>(
    text: &mut Vec<u8, A>,
    label: &[u8],
    number: u128,
) -> Result<(), AllocError>
    ensures { OnOk result (text.new.items ≡ text.old.items ++ label.now ++ decimal number) }
{
    let mut digits = Buffer::new();
    text.extend_from_slice(label)?;
    text.extend_from_slice(digits.format(number).as_bytes())
}

/// Adds a line of a label and escaped octets.
///
/// # Errors
///
/// `AllocError` where memory is refused.
pub fn put_escaped_line<A: Allocator + Copy>(
    text: &mut Vec<u8, A>,
    label: &[u8],
    octets: &[u8],
) -> Result<(), AllocError>
    ensures { OnOk result (text.new.items ≡ text.old.items ++ label.now ++ escaped octets.now ++ 10 ∷ []) }
{
    text.extend_from_slice(label)?;
    put_escaped(text, octets)?;
    text.push(b'\n')?;
    Ok(())
}

/// Adds octets as they are printed: visible ASCII and the space as they are, a backslash doubled, any other as `\x` and
/// two hexadecimal digits.
///
/// # Errors
///
/// `AllocError` where memory is refused.
pub fn put_escaped<A: Allocator + Copy>(
    text: &mut Vec<u8, A>,
    octets: &[u8],
) -> Result<(), AllocError>
    ensures { OnOk result (text.new.items ≡ text.old.items ++ escaped octets.now) }
{
    for octet in octets {
        put_escaped_octet(text, *octet)?;
    }
    Ok(())
}

/// Adds an octet as it is printed.
fn put_escaped_octet<A: Allocator + Copy>(
    text: &mut Vec<u8, A>,
    octet: u8,
) -> Result<(), AllocError>
    ensures { OnOk result (text.new.items ≡ text.old.items ++ escaped_octet octet) }
{
    match octet {
        b'\\' => text.extend_from_slice(b"\\\\"),
        0x20..=0x7E => {
            text.push(octet)?;
            Ok(())
        }
        _ => text.extend_from_slice(&[
            b'\\',
            b'x',
            hexadecimal_digit(octet / 16),
            hexadecimal_digit(octet % 16),
        ]),
    }
}

/// The digit of a number below 16, in lower case.
fn hexadecimal_digit(n: u8) -> u8
    requires { n < 16 }
    ensures { result ≡ hexadecimal_digit n }
{
    if n < 10 { b'0' + n } else { b'a' - 10 + n }
}
