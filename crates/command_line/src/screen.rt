//! Whether a terminal shows colors, by the environment.
ghost use Rattle.std.specs.Prelude.{◌≡◌};
ghost use Rattle.command_line.specs.Coloring.{allows_colors, is_dumb, is_set};

use std::env::VarError;

/// Whether the environment's NO_COLOR and TERM, as `env::var` gives them, leave colors to a terminal.
pub fn allows_colors(no_color: &Result<String, VarError>, term: &Result<String, VarError>) -> bool
    ensures { result ≡ allows_colors no_color.now term.now }
{
    !is_set(no_color) && !is_dumb(term)
}

// Whether a variable has a value, if not an empty one.
fn is_set(variable: &Result<String, VarError>) -> bool
    ensures { result ≡ is_set variable.now }
{
    match variable {
        Ok(value) => value.as_str() != "",
        Err(VarError::NotPresent) => false,
        Err(VarError::NotUnicode) => true,
        Err(VarError::OutOfMemory) => true,
    }
}

fn is_dumb(term: &Result<String, VarError>) -> bool
    ensures { result ≡ is_dumb term.now }
{
    match term {
        Ok(value) => value.as_str() == "dumb",
        Err(_) => false,
    }
}
