//! What of a program is hardly meant so.
use lot_findings::Source;
use lot_program_text::{Warning, warnings_of};
use std::io;

/// Tells on standard error what of a program is hardly meant so.
///
/// # Errors
///
/// The errors of standard error, and `OutOfMemory`.
pub fn warn(rt: &HostRuntime, source: Source<'_>) -> io::Result<()> {
    for warning in warnings_of(rt.alloc(), &source.parsed.program)? {
        match warning {
            Warning::Grows { line, variable } => {
                let name = source.variable_name(variable);
                eprintln!(rt;
                    "warning: line {line}: {name} gets more in a loop without end, so states never end"
                )?;
            }
            Warning::Fixed {
                line,
                variable,
                holds,
            } => warn_fixed(rt, line, source.variable_name(variable), holds)?,
            Warning::FixedProperty {
                property,
                variable,
                holds,
            } => {
                let line = source.parsed.property_lines.get(property).copied();
                warn_fixed(rt, line.unwrap_or(0), source.variable_name(variable), holds)?;
            }
            Warning::Unreached { line } => {
                eprintln!(rt; "warning: line {line}: it comes after a loop without end")?;
            }
        }
    }
    Ok(())
}

fn warn_fixed(rt: &HostRuntime, line: u32, name: &str, holds: bool) -> io::Result<()> {
    let how = if holds { "always" } else { "never" };
    eprintln!(rt; "warning: line {line}: no thread writes {name}, so the test {how} holds")
}
