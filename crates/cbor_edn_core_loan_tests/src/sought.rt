//! Visits of tags and of application literals: which items are called at, and the texts that are left.
ghost use Rattle.std.specs.Prelude.{◌≡◌};
ghost use Rattle.cbor_edn_core.specs.tree.View.{item_tree};

use crate::common::{sequence_of, standalone_of};
use cbor_edn_core::tree::{Item, Sequence, StandaloneItem};
use cbor_edn_expect::failures::Failures;
use cbor_edn_parts::base::error::CallbackError;
use std::alloc::Global;
use std::test::Fail;

/// What a callback does at an item: it answers a comment, puts what a text says in its place, or puts what the tag holds there.
#[derive(Clone, Copy)]
enum Done {
    Nothing,
    Comment,
    Puts(u64, &'static str),
    Unwraps,
}

fn put<'a>(item: &mut Item<'a>, alloc: Global, text: &'a str) -> Result<(), CallbackError> {
    let Ok(mut other) = StandaloneItem::parse(alloc, text) else {
        return Ok(());
    };
    let Some(inner) = other.at_mut(&[]) else {
        return Ok(());
    };
    std::mem::swap(item, inner);
    Ok(())
}

fn unwrap_tag(item: &mut Item<'_>) -> Result<(), CallbackError> {
    let Ok(content) = item.get_tagged_mut() else {
        return Ok(());
    };
    let Some(inner) = content.at_mut(&[]) else {
        return Ok(());
    };
    let copy = inner.clone()?;
    *item = copy;
    Ok(())
}

fn act<'a>(
    number: u64,
    item: &mut Item<'a>,
    alloc: Global,
    calls: &mut String,
    what: Done,
) -> Result<(), CallbackError> {
    let word = format!(in alloc; "{number};")?;
    calls.push_str(word.as_str())?;
    match what {
        Done::Nothing => Ok(()),
        Done::Comment => Err(CallbackError::Comment(String::from_str(alloc, "t")?)),
        Done::Puts(at, text) => {
            if at == number {
                put(item, alloc, text)
            } else {
                Ok(())
            }
        }
        Done::Unwraps => unwrap_tag(item),
    }
}

/// The numbers that a visit of tags tells, and the text that it leaves, one behind the other.
fn visited(alloc: Global, text: &'static str, what: Done) -> Result<String, Fail> {
    let mut sequence = sequence_of(alloc, text)?;
    visited_sequence(&mut sequence, alloc, what)
}

fn visited_sequence(
    sequence: &mut Sequence<'static>,
    alloc: Global,
    what: Done,
) -> Result<String, Fail> {
    let mut told = String::new(alloc);
    sequence.visit_tag(
        alloc,
        &mut |number, item| act(number, item, alloc, &mut told, what),
    )?;
    let text = sequence.serialize(alloc)?;
    told.push_str(text.as_str())?;
    Ok(told)
}

/// The numbers that a visit of a standalone item's tags tells, and the text that it leaves, one behind the other.
fn visited_alone(alloc: Global, text: &'static str, what: Done) -> Result<String, Fail> {
    let mut item = standalone_of(alloc, text)?;
    visited_item(&mut item, alloc, what)
}

fn visited_item(
    item: &mut StandaloneItem<'static>,
    alloc: Global,
    what: Done,
) -> Result<String, Fail> {
    let mut told = String::new(alloc);
    item.visit_tag(
        alloc,
        &mut |number, item| act(number, item, alloc, &mut told, what),
    )?;
    let text = item.serialize(alloc)?;
    told.push_str(text.as_str())?;
    Ok(told)
}

/// Texts, what a callback does at their tags, and the numbers that it is called with and the text then: by hand from the docstring
/// of `visit_tag`.
const TAGS: &[(&str, Done, &str)] = &[
    ("1(2(3))", Done::Comment, "1;2;1(2(3)/ t /)/ t /"),
    ("1(2(3))", Done::Puts(1, "5(2(3))"), "1;2;5(2(3))"),
    ("1(2(3))", Done::Puts(1, "4(1(2(3)))"), "1;4(1(2(3)))"),
    (
        "[1(0), {2(0): 3(0)}], 4(0)",
        Done::Nothing,
        "1;2;3;4;[1(0), {2(0): 3(0)}], 4(0)",
    ),
    (
        "{1(0) : 2(0),}",
        Done::Comment,
        "1;2;{1(0)/ t / : 2(0)/ t /,}",
    ),
    ("simple(1(0))", Done::Comment, "simple(1(0))"),
    ("<<1(2)>>", Done::Comment, "1;<<1(2)/ t />>"),
    (
        "'a' + <<1(0), 2(0)>> + <<3(0)>>",
        Done::Nothing,
        "1;2;3;'a' + <<1(0), 2(0)>> + <<3(0)>>",
    ),
    (
        "(_ <<1(0)>>, 'a', <<[2(0)]>>)",
        Done::Comment,
        "1;2;(_ <<1(0)/ t />>, 'a', <<[2(0)/ t /]>>)",
    ),
    ("1(0)", Done::Puts(1, "1(<<1(0)>>)"), "1;1(<<1(0)>>)"),
    ("1([])", Done::Puts(1, "[1(0)]"), "1;1;[[1(0)]]"),
    ("1(2(3(0)))", Done::Unwraps, "1;3;2(0)"),
];

/// Texts of standalone items, with `TAGS`' columns: the spaces around the item stay.
const TAGS_ALONE: &[(&str, Done, &str)] = &[
    (
        " 1(2(3)) # d\n",
        Done::Comment,
        "1;2; 1(2(3)/ t /)/ t / # d\n",
    ),
    (" 1(2(3)) ", Done::Puts(1, "5(2(3))"), "1;2; 5(2(3)) "),
    (" 1(2(3)) ", Done::Puts(1, "4(1(2(3)))"), "1; 4(1(2(3))) "),
    (" 1(2(3(0))) ", Done::Unwraps, "1;3; 2(0) "),
    (" [0] ", Done::Comment, " [0] "),
];

/// Tells the number of a tag, and answers a comment. The tag stays.
fn note(
    number: u64,
    item: &mut Item<'_>,
    alloc: Global,
    calls: &mut String,
) -> Result<(), CallbackError>
    ensures { item_tree item.new ≡ item_tree item.old }
{
    let word = format!(in alloc; "{number};")?;
    calls.push_str(word.as_str())?;
    Err(CallbackError::Comment(String::from_str(alloc, "t")?))
}

/// The numbers that a visit tells whose calls leave the tags, and the text that it leaves.
fn noted(alloc: Global, text: &'static str) -> Result<String, Fail> {
    let mut sequence = sequence_of(alloc, text)?;
    noted_sequence(&mut sequence, alloc)
}

fn noted_sequence(sequence: &mut Sequence<'static>, alloc: Global) -> Result<String, Fail> {
    let mut told = String::new(alloc);
    sequence.visit_tag_no_deeper(
        alloc,
        &mut |number, item| note(number, item, alloc, &mut told),
    )?;
    let text = sequence.serialize(alloc)?;
    told.push_str(text.as_str())?;
    Ok(told)
}

/// Whether a tag stands in a text, in words.
fn tagged(alloc: Global, text: &'static str) -> Result<String, Fail> {
    let sequence = sequence_of(alloc, text)?;
    let word = if sequence.has_tag() { "tagged" } else { "none" };
    Ok(String::from_str(alloc, word)?)
}

/// Texts, and the numbers of their tags with the text that has a comment behind each.
const NOTED: &[(&str, &str)] = &[
    ("1(2(3))", "1;2;1(2(3)/ t /)/ t /"),
    (
        "[1(0), {2(0): 3(0)}], 4(0)",
        "1;2;3;4;[1(0)/ t /, {2(0)/ t /: 3(0)/ t /}], 4(0)/ t /",
    ),
    ("simple(1(0))", "simple(1(0))"),
    (
        "(_ <<1(0)>>, 'a', <<[2(0)]>>)",
        "1;2;(_ <<1(0)/ t />>, 'a', <<[2(0)/ t /]>>)",
    ),
];

/// Texts, and whether a visit of their tags makes a call: each form that is entered, and the last place of each row.
const TAGGED: &[(&str, &str)] = &[
    ("", "none"),
    ("1, [2, {3: 'a'}], (_ 'b'), <<4>>", "none"),
    ("simple(1(0))", "none"),
    ("1(0)", "tagged"),
    ("1, 2, 3(0)", "tagged"),
    ("[1(0), 2]", "tagged"),
    ("[1, 2(0)]", "tagged"),
    ("{1(0): 2, 3: 4}", "tagged"),
    ("{1: 2(0), 3: 4}", "tagged"),
    ("{1: 2, 3(0): 4}", "tagged"),
    ("{1: 2, 3: 4(0)}", "tagged"),
    ("<<1(0)>>", "tagged"),
    ("<<1(0)>> + 'a'", "tagged"),
    ("'a' + <<1(0)>>", "tagged"),
    ("(_ <<1(0)>>, 'a')", "tagged"),
    ("(_ 'a', <<1(0)>>)", "tagged"),
];

#[test]
fn tags_are_visited_without_a_count(rt: HostRuntime) -> Result<(), Fail> {
    let alloc = rt.alloc();
    let mut failures = Failures::new(alloc);
    for &(text, wanted) in NOTED {
        failures.told(alloc, text, noted(alloc, text), wanted)?;
    }
    failures.end()
}

#[test]
fn tags_are_found(rt: HostRuntime) -> Result<(), Fail> {
    let alloc = rt.alloc();
    let mut failures = Failures::new(alloc);
    for &(text, wanted) in TAGGED {
        failures.told(alloc, text, tagged(alloc, text), wanted)?;
    }
    failures.end()
}

#[test]
fn tags_are_visited_in_order(rt: HostRuntime) -> Result<(), Fail> {
    let alloc = rt.alloc();
    let mut failures = Failures::new(alloc);
    for &(text, what, wanted) in TAGS {
        failures.told(alloc, text, visited(alloc, text, what), wanted)?;
    }
    failures.end()
}

#[test]
fn tags_of_standalone_items_are_visited_in_order(rt: HostRuntime) -> Result<(), Fail> {
    let alloc = rt.alloc();
    let mut failures = Failures::new(alloc);
    for &(text, what, wanted) in TAGS_ALONE {
        failures.told(alloc, text, visited_alone(alloc, text, what), wanted)?;
    }
    failures.end()
}

/// The call at a literal: it tells what it is given, and puts what a text says in its place, or answers a comment.
fn at_literal<'a>(
    words: (String, String),
    item: &mut Item<'a>,
    alloc: Global,
    told: &mut String,
    puts: Option<&'a str>,
) -> Result<(), CallbackError> {
    let (prefix, text) = words;
    let word = format!(in alloc; "{prefix}:{text};")?;
    told.push_str(word.as_str())?;
    answer(item, alloc, puts)
}

fn answer<'a>(
    item: &mut Item<'a>,
    alloc: Global,
    puts: Option<&'a str>,
) -> Result<(), CallbackError> {
    match puts {
        Some(other) => put(item, alloc, other),
        None => Err(CallbackError::Comment(String::from_str(alloc, "c")?)),
    }
}

/// The call at a literal that is given as an item: it tells the prefix.
fn at_item<'a>(
    item: &mut Item<'a>,
    alloc: Global,
    told: &mut String,
    puts: Option<&'a str>,
) -> Result<(), CallbackError> {
    told.push_str(item.application_prefix().unwrap_or("no prefix"))?;
    told.push_str(";")?;
    answer(item, alloc, puts)
}

/// The prefixes of the literals that a visit tells as items, and the text that it leaves.
fn items(alloc: Global, text: &'static str, puts: Option<&'static str>) -> Result<String, Fail> {
    let mut sequence = sequence_of(alloc, text)?;
    items_of(&mut sequence, alloc, puts)
}

fn items_of(
    sequence: &mut Sequence<'static>,
    alloc: Global,
    puts: Option<&'static str>,
) -> Result<String, Fail> {
    let mut told = String::new(alloc);
    sequence.visit_application_items(alloc, &mut |item| at_item(item, alloc, &mut told, puts))?;
    let text = sequence.serialize(alloc)?;
    told.push_str(text.as_str())?;
    Ok(told)
}

/// The literals that a visit tells, and the text that it leaves.
fn literals(alloc: Global, text: &'static str, puts: Option<&'static str>) -> Result<String, Fail> {
    let mut sequence = sequence_of(alloc, text)?;
    literals_of(&mut sequence, alloc, puts)
}

fn literals_of(
    sequence: &mut Sequence<'static>,
    alloc: Global,
    puts: Option<&'static str>,
) -> Result<String, Fail> {
    let mut told = String::new(alloc);
    sequence.visit_application_literals(
        alloc,
        &mut |prefix, text, item| at_literal((prefix, text), item, alloc, &mut told, puts),
    )?;
    let text = sequence.serialize(alloc)?;
    told.push_str(text.as_str())?;
    Ok(told)
}

/// The literals that a visit of a standalone item tells, and the text that it leaves.
fn literals_alone(
    alloc: Global,
    text: &'static str,
    puts: Option<&'static str>,
) -> Result<String, Fail> {
    let mut item = standalone_of(alloc, text)?;
    literals_of_item(&mut item, alloc, puts)
}

fn literals_of_item(
    item: &mut StandaloneItem<'static>,
    alloc: Global,
    puts: Option<&'static str>,
) -> Result<String, Fail> {
    let mut told = String::new(alloc);
    item.visit_application_literals(
        alloc,
        &mut |prefix, text, item| at_literal((prefix, text), item, alloc, &mut told, puts),
    )?;
    let text = item.serialize(alloc)?;
    told.push_str(text.as_str())?;
    Ok(told)
}

/// Texts, what a callback puts at their literals, and the literals that it is called with and the text then: by hand from the
/// docstring of `visit_application_literals`.
const LITERALS: &[(&str, Option<&str>, &str)] = &[
    ("h'00'", None, "h:00;h'00'/ c /"),
    ("'a'", None, "'a'"),
    (
        "[dt'1', \"a\", ip'2' ]",
        None,
        "dt:1;ip:2;[dt'1'/ c /, \"a\", ip'2'/ c / ]",
    ),
    ("(_ h'00')", None, "(_ h'00')"),
    ("h'00' + h'01'", None, "h'00' + h'01'"),
    ("<<h'00'>>", None, "h:00;<<h'00'/ c />>"),
    (
        "'a' + <<x'1', [y'2']>>",
        None,
        "x:1;y:2;'a' + <<x'1'/ c /, [y'2'/ c /]>>",
    ),
    ("x'1'", Some("<<x'1'>>"), "x:1;<<x'1'>>"),
    (
        "[x'1', x'2']",
        Some("[x'1', x'1']"),
        "x:1;x:2;[[x'1', x'1'], [x'1', x'1']]",
    ),
    (
        "[0 /unmodified/, german'zweiundvierzig']",
        Some("42"),
        "german:zweiundvierzig;[0 /unmodified/, 42]",
    ),
];

/// `LITERALS`' columns, for calls that are given the item without the literal's text: its prefix alone is told.
const ITEMS: &[(&str, Option<&str>, &str)] = &[
    (
        "[dt'1', \"a\", ip'2' ]",
        None,
        "dt;ip;[dt'1'/ c /, \"a\", ip'2'/ c / ]",
    ),
    ("'a'", None, "'a'"),
    ("h'00' + h'01'", None, "h'00' + h'01'"),
    ("x'1'_1", Some("<<x'1'>>"), "x;<<x'1'>>"),
];

/// Texts of standalone items, with `LITERALS`' columns: the spaces around the item stay.
const LITERALS_ALONE: &[(&str, Option<&str>, &str)] = &[
    (" x'1' # d\n", None, "x:1; x'1'/ c / # d\n"),
    (
        " [x'1', x'2'] ",
        Some("[x'1', x'1']"),
        "x:1;x:2; [[x'1', x'1'], [x'1', x'1']] ",
    ),
    (
        "[0 /unmodified/, german'zweiundvierzig']",
        Some("42"),
        "german:zweiundvierzig;[0 /unmodified/, 42]",
    ),
    (" 1(2) ", None, " 1(2) "),
];

#[test]
fn literals_are_visited_in_order(rt: HostRuntime) -> Result<(), Fail> {
    let alloc = rt.alloc();
    let mut failures = Failures::new(alloc);
    for &(text, puts, wanted) in LITERALS {
        failures.told(alloc, text, literals(alloc, text, puts), wanted)?;
    }
    failures.end()
}

#[test]
fn literals_of_standalone_items_are_visited_in_order(rt: HostRuntime) -> Result<(), Fail> {
    let alloc = rt.alloc();
    let mut failures = Failures::new(alloc);
    for &(text, puts, wanted) in LITERALS_ALONE {
        failures.told(alloc, text, literals_alone(alloc, text, puts), wanted)?;
    }
    failures.end()
}

#[test]
fn literals_are_visited_as_items(rt: HostRuntime) -> Result<(), Fail> {
    let alloc = rt.alloc();
    let mut failures = Failures::new(alloc);
    for &(text, puts, wanted) in ITEMS {
        failures.told(alloc, text, items(alloc, text, puts), wanted)?;
    }
    failures.end()
}
