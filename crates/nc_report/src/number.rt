//! Numbers as text.

ghost use Rattle.std.specs.Prelude.{◌≡◌, ◌++◌, OnOk};
ghost use Rattle.std.specs.Fmt.{decimal};

use std::alloc::AllocError;

// As many digits as a number has at most.
const DIGITS: usize = 20;

/// Appends the decimal digits of a number.
pub(crate) fn push_number(out: &mut Vec<u8>, number: usize) -> Result<(), AllocError>
    ensures { OnOk result (out.new.items ≡ out.old.items ++ decimal number) }
{
    let mut digits = [b'0'; DIGITS];
    let mut start = DIGITS;
    let mut rest = number;
    'digits: while rest >= 10 {
        start -= 1;
        digits[start] = b'0' + (rest % 10) as u8;
        rest /= 10;
    }
    start -= 1;
    digits[start] = b'0' + rest as u8;
    out.extend_from_slice(&digits[start..])?;
    Ok(())
}

/// Appends a text and the decimal digits of a number.
pub(crate) fn push_count(out: &mut Vec<u8>, text: &[u8], number: usize) -> Result<(), AllocError>
    ensures { OnOk result (out.new.items ≡ out.old.items ++ (text.now ++ decimal number)) }
{
    out.extend_from_slice(text)?;
    push_number(out, number)?;
    Ok(())
}
