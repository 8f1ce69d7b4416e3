//! What the tests hold answers to: whether something holds, texts, and bytes as digits.
#![tactic(auto)]

pub mod failures;
pub mod memory;

ghost use Rattle.std.specs.Prelude.{◌≡◌, IsTrue, OnOk};

use cbor_edn_parts::base::error::Fault;
use std::alloc::Global;
use std::fmt::Debug;
use std::test::Fail;

/// Fails with the row of which something does not hold.
pub fn expect(row: &str, holds: bool) -> Result<(), Fail>
    ensures { OnOk result (IsTrue holds) }
{
    if holds { Ok(()) } else { Err(Fail::new(row)) }
}

/// Fails where a text is not the wanted one.
pub fn expect_text(alloc: Global, told: &str, wanted: &str) -> Result<(), Fail>
    ensures { OnOk result (told.now ≡ wanted.now) }
{
    if told == wanted {
        Ok(())
    } else {
        Err(Fail::new(format!(in alloc; "{told:?}, and not {wanted:?}")?))
    }
}

/// Fails where the answer is not the wanted text, and where there is none.
pub fn expect_told(alloc: Global, told: Result<String, Fail>, wanted: &str) -> Result<(), Fail> {
    let told = told?;
    expect_text(alloc, told.as_str(), wanted)
}

/// Fails with the row whose answer is not the wanted one.
pub fn expect_row(alloc: Global, row: &str, told: &str, wanted: &str) -> Result<(), Fail>
    ensures { OnOk result (told.now ≡ wanted.now) }
{
    if told == wanted {
        Ok(())
    } else {
        Err(Fail::new(format!(in alloc; "{row:?}: {told:?}, and not {wanted:?}")?))
    }
}

/// A value in a box: a proof writes out what a function holds, and of a box only that it is one.
pub fn boxed<T: Drop, E: Debug + Drop>(
    alloc: Global,
    answer: Result<T, E>,
) -> Result<Box<T>, Fail> {
    Ok(Box::new(alloc, answer?)?)
}

/// Bytes in lower case digits, or the name of the refusal. Fails where memory runs out.
pub fn digits_of<E: Debug + Drop>(
    alloc: Global,
    answer: Result<Vec<u8>, Fault<E>>,
) -> Result<String, Fail> {
    match answer {
        Ok(bytes) => Ok(hex::encode(alloc, bytes.as_slice())?),
        Err(fault) => name_of(alloc, fault),
    }
}

/// The name of a refusal, as `Debug` writes it. Fails where it is want of memory.
pub fn name_of<E: Debug + Drop>(alloc: Global, fault: Fault<E>) -> Result<String, Fail> {
    match fault {
        Fault::Told(refused) => Ok(format!(in alloc; "{refused:?}")?),
        Fault::Memory(refused) => Err(Fail::from(refused)),
    }
}
