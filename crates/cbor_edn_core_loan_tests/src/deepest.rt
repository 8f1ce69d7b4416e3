//! Paths and visits where trees nest as deep as texts may. `scripts/gate/stack.sh` runs them under a small stack.
use crate::common::standalone_of;
use cbor_edn_core::tree::{NESTING_LIMIT, StandaloneItem};
use cbor_edn_expect::failures::Failures;
use cbor_edn_parts::base::error::CallbackError;
use std::alloc::Global;
use std::test::Fail;

type Form = (&'static str, &'static str, &'static str, &'static [usize]);

/// Forms that nest round a literal: openings, closings, closings where tags have comments, and a path through the openings:
/// by hand from the grammar in `docs/SUPPORTED.md` and the docstrings of `at_mut` and of the visits.
const FORMS: &[Form] = &[
    ("[", "]", "]", &[0]),
    ("[2,", ",3]", ",3]", &[1]),
    ("{", ":2}", ":2}", &[0]),
    ("{2:3,4:", ",5:6}", ",5:6}", &[3]),
    ("6(", ")", ")/ c /", &[0]),
    ("<<", ">>", ">>", &[0]),
    ("'a'+<<2,", ",3>>+<<4>>", ",3>>+<<4>>", &[1]),
    ("(_ <<2>>,'b'+<<3,", ">>,'c')", ">>,'c')", &[2]),
    ("[{2:6(<<", ">>)}]", ">>)/ c /}]", &[0, 1, 0, 0]),
    (
        "{6([(_ <<2>>+<<",
        ",3>>,'c')]):4}",
        ",3>>,'c')])/ c /:4}",
        &[0, 0, 0, 1],
    ),
];

const INSIDE: &str = "h'00'";

const COMMENTED: &str = "h'00'/ c /";

/// How often the openings of a form stand in one another.
fn turns(form: &Form) -> Result<usize, Fail> {
    Ok(NESTING_LIMIT.checked_div(form.3.len()).ok_or("no level")?)
}

fn nested(alloc: Global, form: &Form, inside: &str, close: &str) -> Result<String, Fail> {
    let turns = turns(form)?;
    let open = form.0.repeat(alloc, turns)?;
    let close = close.repeat(alloc, turns)?;
    Ok(format!(in alloc; "{open}{inside}{close}")?)
}

/// Whether an answer is that.
fn is_nested(
    alloc: Global,
    told: Result<String, Fail>,
    form: &Form,
    inside: &str,
    close: &str,
) -> Result<bool, Fail> {
    let told = told?;
    Ok(told == nested(alloc, form, inside, close)?)
}

// Under `rt try`, which compiles with checks, these tests ask for more stack than is common: `ulimit -s hard` gives it.

fn text_at(alloc: Global, text: &str, path: &[usize]) -> Result<String, Fail> {
    let mut item = standalone_of(alloc, text)?;
    let inner = item.at_mut(path).ok_or("no item")?;
    Ok(inner.serialize(alloc)?)
}

#[test]
fn paths_lead_to_the_deepest(rt: HostRuntime) -> Result<(), Fail> {
    let alloc = rt.alloc();
    let mut failures = Failures::new(alloc);
    for form in FORMS {
        failures.told(alloc, form.0, innermost(alloc, form), INSIDE)?;
    }
    failures.end()
}

/// The text of the item where the longest path leads.
fn innermost(alloc: Global, form: &Form) -> Result<String, Fail> {
    let deepest = nested(alloc, form, INSIDE, form.1)?;
    let path = form.3.repeat(alloc, turns(form)?)?;
    text_at(alloc, deepest.as_str(), path.as_slice())
}

fn comment(alloc: Global) -> Result<(), CallbackError> {
    Err(CallbackError::Comment(String::from_str(alloc, "c")?))
}

/// Answers each tag by a comment.
fn comment_tags(item: &mut StandaloneItem<'_>, alloc: Global) -> Result<String, Fail> {
    item.visit_tag(alloc, &mut |_, _| comment(alloc))?;
    Ok(item.serialize(alloc)?)
}

/// Answers each literal by a comment.
fn comment_literals(item: &mut StandaloneItem<'_>, alloc: Global) -> Result<String, Fail> {
    item.visit_application_literals(alloc, &mut |_, _, _| comment(alloc))?;
    Ok(item.serialize(alloc)?)
}

fn tags_commented(alloc: Global, text: &str) -> Result<String, Fail> {
    let mut item = standalone_of(alloc, text)?;
    comment_tags(&mut item, alloc)
}

fn literals_commented(alloc: Global, text: &str) -> Result<String, Fail> {
    let mut item = standalone_of(alloc, text)?;
    comment_literals(&mut item, alloc)
}

#[test]
fn visits_enter_the_deepest(rt: HostRuntime) -> Result<(), Fail> {
    let alloc = rt.alloc();
    let mut failures = Failures::new(alloc);
    for form in FORMS {
        failures.held(alloc, form.0, are_tags_commented(alloc, form))?;
        failures.held(alloc, form.0, are_literals_commented(alloc, form))?;
    }
    failures.end()
}

fn are_tags_commented(alloc: Global, form: &Form) -> Result<bool, Fail> {
    let deepest = nested(alloc, form, INSIDE, form.1)?;
    let told = tags_commented(alloc, deepest.as_str());
    is_nested(alloc, told, form, INSIDE, form.2)
}

fn are_literals_commented(alloc: Global, form: &Form) -> Result<bool, Fail> {
    let deepest = nested(alloc, form, INSIDE, form.1)?;
    let told = literals_commented(alloc, deepest.as_str());
    is_nested(alloc, told, form, COMMENTED, form.1)
}
