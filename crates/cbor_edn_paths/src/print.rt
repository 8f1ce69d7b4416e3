//! Prints a path.
ghost use Rattle.std.specs.Prelude.{◌≡◌, ◌++◌, IfOk, OnOk, string_bytes};
ghost use Rattle.std.specs.Fmt.{decimal};
ghost use Rattle.cbor_edn_paths.specs.Spelling.{path_text, step_text, key_text};
ghost use Rattle.cbor_edn_paths.specs.Views.{path_of, step_of, key_of};
ghost use Rattle.cbor_edn_paths.specs.internal.Printing.{begin_text};

use crate::step::{Key, Path, Step};
use std::alloc::{AllocError, Global};

/// The text of a path, which is read as the same path: `.` where it has neither start nor steps. Fails where memory runs out.
pub fn print(alloc: Global, path: &Path<'_>) -> Result<String, AllocError>
    ensures { IfOk result (λ t. string_bytes t ≡ path_text (path_of path.now)) }
{
    let mut out = String::new(alloc);
    print_begin(&mut out, path)?;
    'steps: for step in &path.steps {
        print_step(&mut out, *step)?;
    }
    Ok(out)
}

/// Appends what stands in front of the steps.
fn print_begin(out: &mut String, path: &Path<'_>) -> Result<(), AllocError>
    ensures { OnOk result (string_bytes out.new ≡ string_bytes out.old ++ begin_text (path_of path.now)) }
{
    match path.start {
        Some(number) => print_number(out, "@", number, ""),
        None if path.steps.is_empty() => out.push_str("."),
        None => Ok(()),
    }
}

/// Appends the text of a step, as for the end of a path that leads nowhere. Fails where memory runs out.
fn print_step(out: &mut String, step: Step<'_>) -> Result<(), AllocError>
    ensures { OnOk result (string_bytes out.new ≡ string_bytes out.old ++ step_text (step_of step.entry)) }
{
    match step {
        Step::Value(key, None) => print_key(out, key),
        Step::Value(key, Some(number)) => {
            print_key(out, key)?;
            print_number(out, "~", number, "")
        }
        Step::Element(number) => print_number(out, "[", number, "]"),
        Step::PastLast => out.push_str("[+]"),
        Step::Content(None) => out.push_str("()"),
        Step::Content(Some(number)) => print_number(out, "(", number, ")"),
        Step::Embedded(number) => print_number(out, "<", number, ">"),
    }
}

fn print_key(out: &mut String, key: Key<'_>) -> Result<(), AllocError>
    ensures { OnOk result (string_bytes out.new ≡ string_bytes out.old ++ key_text (key_of key.entry)) }
{
    match key {
        Key::Name(text) => print_between(out, ".", text, ""),
        Key::Quoted(text) => print_between(out, ".\"", text, "\""),
        Key::Braced(text) => print_between(out, "{", text, "}"),
    }
}

fn print_number(out: &mut String, before: &str, number: u64, behind: &str) -> Result<(), AllocError>
    ensures { OnOk result (string_bytes out.new ≡ string_bytes out.old ++ (before.now ++ (decimal number ++ behind.now))) }
{
    print_between(out, before, itoa::Buffer::new().format(number), behind)
}

fn print_between(out: &mut String, before: &str, text: &str, behind: &str) -> Result<(), AllocError>
    ensures { OnOk result (string_bytes out.new ≡ string_bytes out.old ++ (before.now ++ (text.now ++ behind.now))) }
{
    out.push_str(before)?;
    out.push_str(text)?;
    out.push_str(behind)
}
