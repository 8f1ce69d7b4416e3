//! What is found of an input that is no input of a run, or has no encoding.
ghost use Rattle.std.specs.Prelude.{ℕ, List, IfOk, IfSome, IfNone, string_bytes};
ghost use Rattle.std.specs.Option.{IsSome};
ghost use Rattle.cbor_edn.specs.Runs.{IsOutput, IsRefused};
ghost use Rattle.cbor_edn.specs.declared.engine.RunError.{RunError};
ghost use Rattle.cbor_edn.specs.declared.engine.RunError.TheVariants.{Inconsistent};
ghost use Rattle.cbor_edn_command.specs.Hexadecimal.{input_bytes};
ghost use Rattle.cbor_edn_parts.specs.base.Errors.{error_offset, error_line, error_column};
ghost use Rattle.cbor_edn_findings.specs.Findings.{IsPlaced, IsAt, IsAtFirst, IsRefusal, IsNotText, IsInBytes, IsInDecoded, IsInText, IsNowhere, IsFoundOf};

use crate::bytes::offset_of_fault;
use crate::places::{first_in_text, located};
use crate::shown::valid_part;
use cbor_edn::engine::{Options, RunError, converted};
use cbor_edn_command::hexadecimal;
use cbor_edn_core::cbor::decode::CborError;
use cbor_edn_parts::base::error::{Fault, InconsistentEdn, ParseError};
use std::alloc::{AllocError, Global};
use std::fmt::Display;

/// What is at fault in an input, and where.
#[derive(Debug, Drop)]
pub enum Finding {
    /// At a place of a text: bytes from 0, and the line and the column from 1. Columns count characters.
    InText {
        words: String,
        offset: usize,
        line: usize,
        column: usize,
    },
    /// At a byte, from 0: of those that digits stand for.
    InBytes {
        words: String,
        offset: usize,
    },
    /// Without a place.
    Nowhere {
        words: String,
    },
}

const TOO_DEEP: &str = "EDN nested too deeply";

const INVALID: &str = "Invalid EDN";

const NOT_UTF8: &str = "Not UTF-8";

/// Words with the place of a refusal.
fn in_text(words: String, place: &ParseError) -> Finding
    ensures { IsPlaced (string_bytes words) (error_offset place.now) (error_line place.now) (error_column place.now) result }
{
    Finding::InText {
        words,
        offset: place.offset(),
        line: place.line(),
        column: place.column(),
    }
}

/// Words at an offset of a text.
fn at_offset(words: String, text: &str, offset: usize) -> Finding
    ensures { IsAt (string_bytes words) text.now offset result }
{
    match located(text, offset) {
        Some(place) => in_text(words, &place),
        None => Finding::Nowhere { words },
    }
}

fn not_parsed(alloc: Global, fault: &ParseError) -> Result<Finding, AllocError>
    ensures { IfOk result (IsRefusal fault.now) }
{
    let words = if fault.too_deep() { TOO_DEEP } else { INVALID };
    Ok(in_text(String::from_str(alloc, words)?, fault))
}

fn not_utf8(alloc: Global, input: &[u8]) -> Result<Finding, AllocError>
    ensures { IfOk result (IsNotText input.now) }
{
    let part = valid_part(input);
    let words = String::from_str(alloc, NOT_UTF8)?;
    Ok(at_offset(words, part, part.len()))
}

/// What is at fault in bytes that are no CBOR.
fn not_cbor(
    alloc: Global,
    limit: usize,
    bytes: &[u8],
    fault: CborError,
) -> Result<Finding, AllocError>
    ensures { IfOk result (IsInBytes limit bytes.now) }
{
    let words = fault.to_string(alloc)?;
    let offset = offset_of_fault(alloc, bytes, limit)?;
    Ok(Finding::InBytes { words, offset })
}

/// What is at fault in an input that is no CBOR, or digits of none.
fn not_decoded(
    alloc: Global,
    options: &Options,
    input: &[u8],
    fault: CborError,
) -> Result<Finding, AllocError>
    ensures { IfOk result (IsInDecoded options.now.limit (input_bytes options.now.hex input.now)) }
{
    if !options.hex {
        return not_cbor(alloc, options.limit, input, fault);
    }
    match hexadecimal::decoded(alloc, input) {
        Ok(bytes) => not_cbor(alloc, options.limit, &bytes, fault),
        Err(Fault::Told(_)) => nowhere(alloc, fault),
        Err(Fault::Memory(refused)) => Err(refused),
    }
}

fn without_encoding(
    alloc: Global,
    options: &Options,
    text: &str,
    reason: InconsistentEdn,
) -> Result<Finding, AllocError>
    ensures { IfOk result (IsInText options.now text.now) }
{
    match first_in_text(alloc, options, text)? {
        Some((offset, reason)) => Ok(at_offset(reason.to_string(alloc)?, text, offset)),
        None => nowhere(alloc, reason),
    }
}

fn nowhere<E: Display + Drop>(alloc: Global, fault: E) -> Result<Finding, AllocError>
    ensures { IfOk result IsNowhere }
{
    Ok(Finding::Nowhere {
        words: format!(in alloc; "{fault}")?,
    })
}

/// What a run found that was refused, with the place in its input. Fails where memory runs out, or ran out in the run.
pub fn of_run(
    alloc: Global,
    options: &Options,
    input: &[u8],
    fault: RunError,
) -> Result<Finding, AllocError>
    ensures { IfOk result (IsFoundOf options.now input.now fault) }
{
    match fault {
        RunError::Parse(fault) => not_parsed(alloc, &fault),
        RunError::NotUtf8 => not_utf8(alloc, input),
        RunError::Cbor(fault) => not_decoded(alloc, options, input, fault),
        RunError::Inconsistent(reason) => {
            without_encoding(alloc, options, valid_part(input), reason)
        }
        RunError::Memory(refused) => Err(refused),
        other => nowhere(alloc, other),
    }
}

fn found(
    alloc: Global,
    options: &Options,
    input: &[u8],
    fault: RunError,
) -> Result<Option<Finding>, AllocError>
    ensures some { IfOk result IsSome }
    ensures found { IfOk result (λ r. IfSome r (IsFoundOf options.now input.now fault)) }
{
    match of_run(alloc, options, input, fault) {
        Ok(finding) => Ok(Some(finding)),
        Err(refused) => Err(refused),
    }
}

/// What is at fault in an input of a run with these options: nothing where it has an output.
pub fn in_input(
    alloc: Global,
    options: &Options,
    input: &[u8],
) -> Result<Option<Finding>, AllocError>
    ensures well { IfOk result (λ found. IfNone found ((out : List ℕ) × IsOutput options.now input.now out)) }
    ensures ill { IfOk result (λ found. IfSome found (λ f. (fault : RunError) × IsRefused options.now input.now fault × IsFoundOf options.now input.now fault f)) }
    ensures placed { IfOk result (λ found. IfSome found (λ f. (e : InconsistentEdn) → IsRefused options.now input.now (Inconsistent e) → IsAtFirst options.now input.now f)) }
{
    match converted(alloc, options, input) {
        Ok(_) => Ok(None),
        Err(fault) => found(alloc, options, input, fault),
    }
}
