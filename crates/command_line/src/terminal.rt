//! Whether a terminal takes more than lines.

use std::env;

/// Whether the terminal takes sequences for colors, and for what replaces a line: `TERM` names the terminal.
pub fn takes_sequences(rt: &HostRuntime) -> bool {
    match env::var(rt, "TERM") {
        Ok(name) => !name.is_empty() && name.as_str() != "dumb",
        Err(_) => false,
    }
}

/// Whether the user wants no colors: `NO_COLOR` is set, and is not empty.
pub fn wants_no_color(rt: &HostRuntime) -> bool {
    match env::var(rt, "NO_COLOR") {
        Ok(value) => !value.is_empty(),
        Err(env::VarError::NotPresent) => false,
        Err(_) => true,
    }
}
