//! The library's one function for callers that are not Rattle, as a static library. The declarations of `bindings/` repeat it.
#![tactic(auto)]

mod fault;
mod place;

ghost use Rattle.std.specs.Prelude.{◌≡◌, IfOk, IfErr};
ghost use Rattle.cbor_edn_c.specs.Calls.{Did, IsMade, IsMessage, IsUnmade, steps_of};
ghost use Rattle.cbor_edn_c_calls.specs.Reports.{TellsPlace};
ghost use Rattle.cbor_edn_c_calls.specs.Statuses.{status_number};
ghost use Rattle.cbor_edn_c_calls.specs.declared.status.Status.{Status};

use crate::fault::call_fault;
use crate::place::{Told, told_of};
use cbor_edn::engine::{Options, RunError, converted};
use cbor_edn::show::shown;
use cbor_edn_c_calls::buffer::put_whole;
use cbor_edn_c_calls::flags::{Asked, asked_for};
use cbor_edn_c_calls::message::put_message;
use cbor_edn_c_calls::report::Report;
use cbor_edn_c_calls::status::Status;
use std::alloc::Global;

/// The place of a fault, and its message as far as there is memory and room.
fn report_of(alloc: Global, told: &Told, message: &mut [u8]) -> Report
    ensures place { TellsPlace told.now.place result }
    ensures output { result.output_len ≡ 0 }
    ensures message { IsMessage result.message_len message.old message.new }
{
    match told.fault.to_string(alloc) {
        Ok(text) => put_message(told.place, text.as_bytes(), message),
        Err(_) => put_message(told.place, b"", message),
    }
}

/// The options of the run that is refused where a call is.
fn steps_of(asked: &Asked) -> Options
    ensures { result ≡ steps_of asked.now }
{
    match asked {
        Asked::Run(options) => *options,
        Asked::Show(options) => options.steps(),
    }
}

/// What is written for an input.
fn made(alloc: Global, asked: &Asked, input: &[u8]) -> Result<Vec<u8>, RunError>
    ensures ok { IfOk result (λ out. IsMade asked.now input.now out.items) }
    ensures err { IfErr result (IsUnmade asked.now input.now) }
{
    match asked {
        Asked::Run(options) => converted(alloc, options, input),
        Asked::Show(options) => shown(alloc, options, input),
    }
}

/// Turns an input into an output, as a run of the program does, and answers the number of a status.
///
/// `command` is 0 for `diag2cbor`, 1 for `cbor2diag`, 2 for `diag2diag`, 3 for `show`. `flags` is a sum of 1 (`hex`), 2 (`annotate_tags`),
/// 4 (`remove_comments`), 8 (`aol_to_item`), 16 (`annotate_ccs`), 32 (`bignum_from_tags`), 64 (`apply_999`) and 128
/// (`preserve_space`); for `show` of 1, 16, 32, 256 (`names`) and 512 for each of `levels`, at most 255. `limit` is at most 512. Lengths
/// and places are in bytes. Only at status 0 is `output` written. Where a length is 0, a caller in C may give a null pointer: the
/// toolchain makes an empty slice of it.
#[unsafe(no_mangle)]
pub extern "C" fn cbor_edn_convert(
    alloc: Global,
    command: u32,
    flags: u32,
    limit: usize,
    input: &[u8],
    output: &mut [u8],
    message: &mut [u8],
    report: &mut Report,
) -> u32
    ensures { (s : Status) × (result ≡ status_number s) × Did s command flags limit input.now output.old output.new message.old message.new report.new }
{
    let Some(asked) = asked_for(command, flags, limit) else {
        *report = Report::of_output(0);
        return Status::BadCall.number();
    };
    match made(alloc, &asked, input) {
        Ok(bytes) => {
            *report = Report::of_output(bytes.len());
            if put_whole(&bytes, output) {
                Status::Done.number()
            } else {
                Status::NoRoom.number()
            }
        }
        Err(fault) => {
            let status = Status::Fault(call_fault(&fault));
            let told = told_of(alloc, &steps_of(&asked), input, fault);
            *report = report_of(alloc, &told, message);
            status.number()
        }
    }
}
