// Text in columns.
ghost use Rattle.std.specs.Prelude.{◌≡◌, ◌++◌, OnOk};
ghost use Rattle.std.specs.Fmt.{decimal};
ghost use Rattle.plan_drawing.specs.Why.{blanks, left_in, right_in};

use itoa::Buffer;
use std::alloc::AllocError;

/// Adds a number in decimal.
pub fn push_number(out: &mut Vec<u8>, number: u64) -> Result<(), AllocError>
    ensures { OnOk result (out.new.items ≡ out.old.items ++ decimal number) }
{
    out.extend_from_slice(Buffer::new().format(number).as_bytes())
}

/// Adds a number at the right of so many columns.
#[tactic(auto, unfolding(crate::specs::Why::right_in))]
pub fn push_right(out: &mut Vec<u8>, width: usize, number: u64) -> Result<(), AllocError>
    ensures { OnOk result (out.new.items ≡ out.old.items ++ right_in width (decimal number)) }
{
    let mut buffer = Buffer::new();
    let digits = buffer.format(number).as_bytes();
    push_blanks(out, width.saturating_sub(digits.len()))?;
    out.extend_from_slice(digits)
}

/// Adds a text at the left of so many columns.
#[tactic(auto, unfolding(crate::specs::Why::left_in))]
pub fn push_left(out: &mut Vec<u8>, width: usize, text: &[u8]) -> Result<(), AllocError>
    ensures { OnOk result (out.new.items ≡ out.old.items ++ left_in width text.now) }
{
    out.extend_from_slice(text)?;
    push_blanks(out, width.saturating_sub(text.len()))
}

#[tactic(auto, using(std::proofs::lemmas::List::replicate_more))]
fn push_blanks(out: &mut Vec<u8>, count: usize) -> Result<(), AllocError>
    ensures { OnOk result (out.new.items ≡ out.old.items ++ blanks count) }
{
    for _column in 0..count {
        out.push(b' ')?;
    }
    Ok(())
}
