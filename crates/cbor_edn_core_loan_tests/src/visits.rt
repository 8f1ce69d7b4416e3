//! Visits: which items are called at, and the texts that are left.
ghost use Rattle.std.specs.Prelude.{⊤};

use crate::common::standalone_of;
use cbor_edn_core::access::TypeMismatch;
use cbor_edn_core::tree::{Item, StandaloneItem};
use cbor_edn_core::visit::MapValueHandler;
use cbor_edn_expect::failures::Failures;
use cbor_edn_expect::{expect, expect_text};
use cbor_edn_parts::base::error::{CallbackError, Fault};
use std::alloc::{AllocError, Global};
use std::test::Fail;

/// Notes the text of an item that a callback was called at.
fn note(calls: &mut String, alloc: Global, item: &Item<'_>) -> Result<String, AllocError> {
    let text = item.serialize(alloc)?;
    calls.push_str(text.as_str())?;
    calls.push(';')?;
    Ok(text)
}

/// Answers each element of an array by a comment.
fn comment_elements(
    item: &mut Item<'_>,
    alloc: Global,
    calls: &mut String,
    comment: &str,
) -> Result<(), Fault<TypeMismatch>> {
    item.visit_array_elements(
        alloc,
        &mut |element| {
            note(calls, alloc, element)?;
            Ok(Some(String::from_str(alloc, comment)?))
        },
    )
}

/// Puts 5 with a comment.
#[derive(Drop)]
struct PutFive;

impl<'a> MapValueHandler<'a> for PutFive {
    ghost handles = { λ _ _ _ _. ⊤ };

    fn handle(self, alloc: Global, value: &mut Item<'a>) -> Result<Option<String>, CallbackError> {
        *value = Item::new_integer_decimal(alloc, 5)?;
        Ok(Some(String::from_str(alloc, "v")?))
    }
}

/// Answers the key 1 by an error's comment, 3 by a comment and a handler, and any other by nothing.
fn comment_keys(
    item: &mut Item<'_>,
    alloc: Global,
    calls: &mut String,
) -> Result<(), Fault<TypeMismatch>> {
    item.visit_map_elements(
        alloc,
        &mut |key| {
            let text = note(calls, alloc, key)?;
            match text.as_str() {
                "1" => Err(CallbackError::Comment(String::from_str(alloc, "bad")?)),
                "3" => Ok((Some(String::from_str(alloc, "k")?), Some(PutFive))),
                _ => Ok((None, None)),
            }
        },
    )
}

#[derive(Clone, Copy)]
enum Visit {
    Elements,
    Keys,
}

/// The calls of a visit, what it answers where it is refused, and the text that it leaves, one behind the other.
fn visited(alloc: Global, text: &str, visit: Visit) -> Result<String, Fail> {
    match standalone_of(alloc, text)?.at_mut(&[]) {
        Some(inner) => visited_item(inner, alloc, visit),
        None => Err(Fail::new("no item")),
    }
}

fn visited_item(item: &mut Item<'_>, alloc: Global, visit: Visit) -> Result<String, Fail> {
    let mut told = String::new(alloc);
    let answer = match visit {
        Visit::Elements => comment_elements(item, alloc, &mut told, "e"),
        Visit::Keys => comment_keys(item, alloc, &mut told),
    };
    match answer {
        Ok(()) => {}
        Err(Fault::Told(refused)) => {
            let words = format!(in alloc; "{refused};")?;
            told.push_str(words.as_str())?;
        }
        Err(Fault::Memory(refused)) => return Err(refused.into()),
    }
    let text = item.serialize(alloc)?;
    told.push_str(text.as_str())?;
    Ok(told)
}

/// Texts, visits, and the calls and the text then: by hand from the docstrings of `visit_array_elements` and `visit_map_elements`.
const VISITED: &[(&str, Visit, &str)] = &[
    ("[1, 2]", Visit::Elements, "1;2;[1/ e /, 2/ e /]"),
    (
        "[_ 1 [2] # a\n]",
        Visit::Elements,
        "1;[2];[_ 1/ e / [2]/ e / # a\n]",
    ),
    ("[_1 ]", Visit::Elements, "[_1 ]"),
    ("{1: 2}", Visit::Elements, "Expected array;{1: 2}"),
    (
        "{1: 2, 3: 4}",
        Visit::Keys,
        "1;3;{1/ bad /: 2, 3/ k /: 5/ v /}",
    ),
    (
        "{3 : {3: 4}, [1]: 1,}",
        Visit::Keys,
        "3;[1];{3/ k / : 5/ v /, [1]: 1,}",
    ),
    ("{ }", Visit::Keys, "{ }"),
    ("[1]", Visit::Keys, "Expected map;[1]"),
];

#[test]
fn visits_call_in_order(rt: HostRuntime) -> Result<(), Fail> {
    let alloc = rt.alloc();
    let mut failures = Failures::new(alloc);
    for &(text, visit, wanted) in VISITED {
        failures.told(alloc, text, visited(alloc, text, visit), wanted)?;
    }
    failures.end()
}

/// A visit ends with the first answer that says so, and says it too.
#[test]
fn memory_ends_a_visit(rt: HostRuntime) -> Result<(), Fail> {
    let alloc = rt.alloc();
    let mut item = standalone_of(alloc, "[1, 2, 3]")?;
    end_at_second(&mut item, alloc)
}

fn end_at_second(item: &mut StandaloneItem<'_>, alloc: Global) -> Result<(), Fail> {
    let mut calls = String::new(alloc);
    let is_ended = match item.at_mut(&[]) {
        Some(array) => is_ended_at_second(array, alloc, &mut calls),
        None => false,
    };
    expect("a visit that ends", is_ended)?;
    expect_text(alloc, calls.as_str(), "1;2;")
}

fn is_ended_at_second(item: &mut Item<'_>, alloc: Global, calls: &mut String) -> bool {
    let answer = item.visit_array_elements(
        alloc,
        &mut |element| {
            let text = note(calls, alloc, element)?;
            if text.as_str() == "2" {
                Err(CallbackError::Memory(AllocError))
            } else {
                Ok(None)
            }
        },
    );
    matches!(answer, Err(Fault::Memory(_)))
}
