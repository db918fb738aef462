//! JSON that is written at once: members of objects, and texts of it.

ghost use Rattle.std.specs.Prelude.{◌≡◌, ◌++◌, [], IfOk, OnOk, Some, option_map, string_bytes};
ghost use Rattle.json.specs.Print.{print};
ghost use Rattle.serde_json.specs.Data.{boolean, number, string};
ghost use Rattle.serde_json.specs.Find.{of_integer};
ghost use Rattle.jc_print.specs.PrintedMembers.{number_data};
ghost use Rattle.jc_print.specs.Tokens.{AddsTokens, given_tokens};

use jc_types::Want;
use json::Writer;
use std::alloc::Global;

// Room for most of what is written.
const CAPACITY: usize = 256;

/// A writer that has written nothing yet.
///
/// # Errors
///
/// Want of memory.
pub fn new_writer(alloc: Global) -> Result<Writer, Want>
    ensures before { IfOk result (λ writer. writer.before ≡ []) }
    ensures tokens { IfOk result (λ writer. writer.tokens ≡ []) }
{
    Ok(Writer::new(Vec::with_capacity(alloc, CAPACITY)?))
}

/// Puts what is written behind the text.
///
/// # Errors
///
/// Want of memory.
pub fn put_written(out: &mut String, writer: Writer) -> Result<(), Want>
    requires { writer.before ≡ [] }
    ensures { OnOk result (string_bytes out.new
        ≡ string_bytes out.old ++ print writer.tokens) }
{
    let text = unsafe { String::from_utf8_unchecked(writer.into_inner()) };
    out.push_str(text.as_str())
}

/// Writes a member of text.
///
/// # Errors
///
/// Want of memory.
pub fn write_text(writer: &mut Writer, name: &str, text: &str) -> Result<(), Want>
    ensures { OnOk result (AddsTokens writer.old writer.new
        (given_tokens name.now (Some (string text.now)))) }
{
    writer.key(name)?;
    writer.string(text)?;
    Ok(())
}

/// Writes a member that is a number.
///
/// # Errors
///
/// Want of memory.
pub fn write_number(writer: &mut Writer, name: &str, number: u32) -> Result<(), Want>
    ensures { OnOk result (AddsTokens writer.old writer.new
        (given_tokens name.now (Some (number_data number)))) }
{
    writer.key(name)?;
    writer.u64(u64::from(number))?;
    Ok(())
}

/// Writes a member that is a number, where it is given.
///
/// # Errors
///
/// Want of memory.
pub fn write_given_number(writer: &mut Writer, name: &str, number: Option<u32>) -> Result<(), Want>
    ensures { OnOk result (AddsTokens writer.old writer.new
        (given_tokens name.now (option_map number_data number))) }
{
    match number {
        None => Ok(()),
        Some(number) => write_number(writer, name, number),
    }
}

/// Writes a member that is an exit code.
///
/// # Errors
///
/// Want of memory.
pub fn write_exit(writer: &mut Writer, name: &str, exit: i32) -> Result<(), Want>
    ensures { OnOk result (AddsTokens writer.old writer.new
        (given_tokens name.now (Some (number (of_integer exit))))) }
{
    writer.key(name)?;
    writer.i64(i64::from(exit))?;
    Ok(())
}

/// Writes a member that is true or false.
///
/// # Errors
///
/// Want of memory.
pub fn write_truth(writer: &mut Writer, name: &str, truth: bool) -> Result<(), Want>
    ensures { OnOk result (AddsTokens writer.old writer.new
        (given_tokens name.now (Some (boolean truth)))) }
{
    writer.key(name)?;
    writer.boolean(truth)?;
    Ok(())
}

/// Writes a member that is true or false, where it is given.
///
/// # Errors
///
/// Want of memory.
pub fn write_given_truth(writer: &mut Writer, name: &str, truth: Option<bool>) -> Result<(), Want>
    ensures { OnOk result (AddsTokens writer.old writer.new
        (given_tokens name.now (option_map boolean truth))) }
{
    match truth {
        None => Ok(()),
        Some(truth) => write_truth(writer, name, truth),
    }
}
