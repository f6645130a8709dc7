//! The places of the registers that a module serves itself, by the table of registers.
ghost use Rattle.std.specs.Prelude.{◌≡◌, ◌≤◌, ◌+◌, ◌-◌, if◌then◌else◌, Some, None};
ghost use Rattle.control_sets.specs.OutcomeOperations as pages;
ghost use Rattle.field_tables.specs.Registers.{byte_count, first_byte};
ghost use Rattle.sim_module.specs.Registers as spec;

use field_tables::{Field, Register, register, row};

/// The page of lane control.
pub fn control_page() -> u8
    ensures { result ≡ pages.control_page }
{
    register(Register::StagedControl).page
}

/// The page of lane status.
pub fn status_page() -> u8
    ensures { result ≡ pages.status_page }
{
    register(Register::ActiveControl).page
}

/// Whether an address is one of so many from a first one on.
pub fn is_from(first: u8, count: u8, address: u8) -> bool
    requires { first + count ≤ 256 }
    ensures { result ≡ spec.is_from first count address }
{
    first <= address && address - first < count
}

/// Whether a register begins at an address.
pub fn is_at(at: Register, address: u8) -> bool
    ensures { result ≡ spec.is_at at address }
{
    address == register(at).first
}

/// Whether a field of one byte is at an address.
pub fn is_field_at(field: Field, address: u8) -> bool
    ensures { result ≡ spec.is_field_at field address }
{
    address == row(field).offset
}

/// Where an address stands among the bytes of a register.
pub fn index_in(within: Register, address: u8) -> Option<u8>
    requires { first_byte within + byte_count within ≤ 256 }
    ensures { result ≡ (if spec.is_in within address then Some (address - first_byte within) else None) }
{
    let span = register(within);
    if is_from(span.first, span.count(), address) {
        Some(address - span.first)
    } else {
        None
    }
}
