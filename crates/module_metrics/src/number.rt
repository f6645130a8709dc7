// The numbers of samples.
ghost use Rattle.std.specs.Prelude.{◌≡◌, ◌++◌, IfSome, OnOk, option_map};
ghost use Rattle.module_metrics.specs.Numbers.{number_of, number_text, power_text};
ghost use Rattle.module_metrics.specs.MetricData.{number_in};

use crate::scale::Scale;
use crate::scaled::push_scaled;
use observable_reports::ShownAmount;
use observables::{Fixed, Scientific};
use std::alloc::{AllocError, Global};
use std::fmt::Display;

/// The number of a sample.
#[derive(Clone, Copy, Drop)]
pub enum Number {
    /// So many parts of a scale.
    Parts(i64, Scale),
    Float(Scientific),
    /// A decimal fraction, times ten to this power.
    Fraction(Fixed, i16),
}

/// The number that an amount is shown as, times ten to this power. None if it is shown as its parts, or as a float of another power than 0:
/// no word amounts to that.
pub fn number_of(shown: ShownAmount, power: i16) -> Option<Number>
    ensures { option_map number_in result ≡ number_of shown power }
{
    match shown {
        ShownAmount::Scientific(float) => {
            if power.unsigned_abs() == 0 {
                Some(Number::Float(float))
            } else {
                None
            }
        }
        ShownAmount::Fixed(fraction) => Some(Number::Fraction(fraction, power)),
        ShownAmount::Fraction(_) => None,
    }
}

/// Adds the text of a number.
pub fn push_number(alloc: Global, text: &mut Vec<u8>, number: Number) -> Result<(), AllocError>
    ensures { OnOk result (text.new.items ≡ text.old.items ++ number_text (number_in number)) }
{
    match number {
        Number::Parts(parts, scale) => push_scaled(text, parts, scale.places()),
        Number::Float(float) => push_shown(alloc, text, float),
        Number::Fraction(fraction, power) => {
            push_shown(alloc, text, fraction)?;
            push_power(alloc, text, power)
        }
    }
}

#[tactic(auto, unfolding(crate::specs::Numbers::power_text))]
fn push_power(alloc: Global, text: &mut Vec<u8>, power: i16) -> Result<(), AllocError>
    ensures { OnOk result (text.new.items ≡ text.old.items ++ power_text power) }
{
    if power.unsigned_abs() == 0 {
        return Ok(());
    }
    text.push(b'e')?;
    push_shown(alloc, text, power)
}

fn push_shown<V: Display + Drop>(
    alloc: Global,
    text: &mut Vec<u8>,
    value: V,
) -> Result<(), AllocError>
    ensures { IfSome (V.output value) (λ shown. OnOk result (text.new.items ≡ text.old.items ++ shown)) }
{
    let shown = format!(in alloc; "{value}")?;
    text.extend_from_slice(shown.as_bytes())
}
