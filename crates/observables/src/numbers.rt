// Numbers by which programs know what is measured and in what unit.
ghost use Rattle.std.specs.Prelude.{◌≡◌};
ghost use Rattle.observables.specs.Numbers as spec;

use crate::observable::{Figure, Side};
use crate::quantity::{Quantity, Unit};

/// The number of a quantity.
pub fn quantity_number(quantity: Quantity) -> u8
    ensures { result ≡ spec.quantity_number quantity }
{
    quantity as u8
}

/// The number of a figure.
pub fn figure_number(figure: Figure) -> u8
    ensures { result ≡ spec.figure_number figure }
{
    figure as u8
}

/// The number of a side.
pub fn side_number(side: Side) -> u8
    ensures { result ≡ spec.side_number side }
{
    side as u8
}

/// The number of a unit.
pub fn unit_number(unit: Unit) -> u8
    ensures { result ≡ spec.unit_number unit }
{
    unit as u8
}
