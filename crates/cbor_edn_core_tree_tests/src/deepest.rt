//! Trees that nest as deep as texts may: copies, encodings, spaces, indicators and visits. `scripts/gate/stack.sh` runs
//! them under a small stack.
ghost use Rattle.std.specs.Prelude.{⊤};

use crate::common::{Edit, bare, edited_sequence, sequence_of, standalone_of};
use crate::trees::is_own_copy;
use cbor_edn_core::tree::{Item, NESTING_LIMIT, Sequence};
use cbor_edn_core::visit::MapValueHandler;
use cbor_edn_expect::failures::Failures;
use cbor_edn_parts::base::error::{CallbackError, Fault};
use cbor_edn_parts::space::policy::DelimiterPolicy;
use std::alloc::Global;
use std::test::Fail;

type Form = (usize, &'static str, &'static str, &'static str, usize, bool);

/// Forms that nest round a literal: how many levels openings have, openings, closings, closings where tags have comments,
/// how many elements or keys the outermost one has, and whether visits enter it and it has an encoding:
/// by hand from the grammar in `docs/SUPPORTED.md` and the docstrings of the visits.
const FORMS: &[Form] = &[
    (1, "[", "]", "]", 1, true),
    (1, "[2,", ",3]", ",3]", 3, true),
    (1, "{2:", "}", "}", 1, true),
    (1, "{", ":2}", ":2}", 1, true),
    (1, "{4:", ",5:6}", ",5:6}", 2, true),
    (1, "{", ":2,3:4}", ":2,3:4}", 2, true),
    (1, "6(", ")", ")/ c /", 0, true),
    (1, "simple(", ")", ")", 0, false),
    (1, "<<", ">>", ">>", 0, true),
    (1, "'a'+<<", ">>+'b'", ">>+'b'", 0, true),
    (1, "(_ <<", ">>)", ">>)", 0, true),
    (1, "(_ 'a','b'+<<", ">>,'c')", ">>,'c')", 0, true),
    (
        1,
        "(_ 'a','b'+<<2,",
        ",3>>+'d','c')",
        ",3>>+'d','c')",
        0,
        true,
    ),
    (4, "[{2:6(<<", ">>)}]", ">>)/ c /}]", 1, true),
    (
        4,
        "{6([(_ 'a'+<<",
        ",3>>,'c')]):2}",
        ",3>>,'c')])/ c /:2}",
        1,
        true,
    ),
];

const INSIDE: &str = "h'00'";

const COMMENTED: &str = "h'00'/ c /";

/// A form with as many levels as texts may have.
fn nested(alloc: Global, form: &Form, inside: &str, close: &str) -> Result<String, Fail> {
    let turns = NESTING_LIMIT.checked_div(form.0).ok_or("no level")?;
    let open = form.1.repeat(alloc, turns)?;
    let close = close.repeat(alloc, turns)?;
    Ok(format!(in alloc; "{open}{inside}{close}")?)
}

/// Whether an answer is that.
fn is_nested(
    alloc: Global,
    told: Result<String, Fail>,
    form: &Form,
    inside: &str,
    close: &str,
) -> Result<bool, Fail> {
    let told = told?;
    Ok(told == nested(alloc, form, inside, close)?)
}

// Under `rt try`, which compiles with checks, these tests ask for more stack than is common: `ulimit -s hard` gives it.

fn has_encoding(alloc: Global, text: &str) -> Result<bool, Fail> {
    let sequence = sequence_of(alloc, text)?;
    match sequence.to_cbor(alloc) {
        Ok(_) => Ok(true),
        Err(Fault::Told(_)) => Ok(false),
        Err(Fault::Memory(refused)) => Err(Fail::from(refused)),
    }
}

#[test]
fn the_deepest_are_copied_and_encoded(rt: HostRuntime) -> Result<(), Fail> {
    let alloc = rt.alloc();
    let mut failures = Failures::new(alloc);
    for form in FORMS {
        failures.held(alloc, form.1, is_copied(alloc, form))?;
        failures.held(alloc, form.1, is_encoded(alloc, form))?;
    }
    failures.end()
}

fn is_copied(alloc: Global, form: &Form) -> Result<bool, Fail> {
    let deepest = nested(alloc, form, INSIDE, form.2)?;
    is_own_copy(alloc, deepest.as_str())
}

/// Whether the deepest of a form has an encoding just where the form says so.
fn is_encoded(alloc: Global, form: &Form) -> Result<bool, Fail> {
    let deepest = nested(alloc, form, INSIDE, form.2)?;
    Ok(has_encoding(alloc, deepest.as_str())? == form.5)
}

/// Each of the deepest keeps its items under the policies.
fn all_laid_out(alloc: Global, policies: &[DelimiterPolicy]) -> Result<(), Fail> {
    let mut failures = Failures::new(alloc);
    for form in FORMS {
        for &policy in policies {
            see_laid_out(&mut failures, alloc, form, policy)?;
        }
    }
    failures.end()
}

fn see_laid_out(
    failures: &mut Failures,
    alloc: Global,
    form: &Form,
    policy: DelimiterPolicy,
) -> Result<(), Fail> {
    let row = format!(in alloc; "{} by {policy:?}", form.1)?;
    failures.held(alloc, row.as_str(), keeps_items(alloc, form, policy))
}

fn keeps_items(alloc: Global, form: &Form, policy: DelimiterPolicy) -> Result<bool, Fail> {
    let deepest = nested(alloc, form, INSIDE, form.2)?;
    let laid_out = edited_sequence(alloc, deepest.as_str(), Edit::LaidOut(policy))?;
    are_same_items(alloc, deepest.as_str(), laid_out.as_str())
}

fn are_same_items(alloc: Global, one: &str, other: &str) -> Result<bool, Fail> {
    Ok(bare(alloc, one)? == bare(alloc, other)?)
}

const ON_ONE_LINE: &[DelimiterPolicy] = &[
    DelimiterPolicy::DiscardAll,
    DelimiterPolicy::DiscardAllButComments,
    DelimiterPolicy::SingleLineRegularSpacing,
    DelimiterPolicy::SingleSpace,
];

#[test]
fn the_deepest_are_laid_out(rt: HostRuntime) -> Result<(), Fail> {
    all_laid_out(rt.alloc(), ON_ONE_LINE)
}

/// A small level, since the spaces grow by the square of the depth.
const INDENTED: DelimiterPolicy = DelimiterPolicy::IndentedRegularSpacing {
    base_indent: 0,
    indent_level: 1,
    max_width: 80,
};

#[test]
fn the_deepest_are_indented(rt: HostRuntime) -> Result<(), Fail> {
    all_laid_out(rt.alloc(), &[INDENTED])
}

#[test]
fn the_deepest_lose_their_indicators(rt: HostRuntime) -> Result<(), Fail> {
    let alloc = rt.alloc();
    let mut failures = Failures::new(alloc);
    for form in FORMS {
        failures.held(alloc, form.1, is_bare(alloc, form))?;
    }
    failures.end()
}

fn is_bare(alloc: Global, form: &Form) -> Result<bool, Fail> {
    let deepest = nested(alloc, form, "1_0", form.2)?;
    let told = edited_sequence(alloc, deepest.as_str(), Edit::Bare);
    let inside = if form.1.contains("<<") { "1_0" } else { "1" };
    is_nested(alloc, told, form, inside, form.2)
}

fn comment(alloc: Global) -> Result<(), CallbackError> {
    Err(CallbackError::Comment(String::from_str(alloc, "c")?))
}

/// Answers each tag by a comment.
fn comment_tags(sequence: &mut Sequence<'_>, alloc: Global) -> Result<String, Fail> {
    sequence.visit_tag(alloc, &mut |_, _| comment(alloc))?;
    Ok(sequence.serialize(alloc)?)
}

/// Answers each literal by a comment.
fn comment_literals(sequence: &mut Sequence<'_>, alloc: Global) -> Result<String, Fail> {
    sequence.visit_application_literals(alloc, &mut |_, _, _| comment(alloc))?;
    Ok(sequence.serialize(alloc)?)
}

fn tags_commented(alloc: Global, text: &str) -> Result<String, Fail> {
    let mut sequence = sequence_of(alloc, text)?;
    comment_tags(&mut sequence, alloc)
}

fn literals_commented(alloc: Global, text: &str) -> Result<String, Fail> {
    let mut sequence = sequence_of(alloc, text)?;
    comment_literals(&mut sequence, alloc)
}

/// Does nothing at a value.
#[derive(Drop)]
struct Passes;

impl<'a> MapValueHandler<'a> for Passes {
    ghost handles = { λ _ _ _ _. ⊤ };

    fn handle(self, _: Global, _: &mut Item<'a>) -> Result<Option<String>, CallbackError> {
        Ok(None)
    }
}

/// How often the visits of elements and of keys call at an item's entries.
fn entries_of(item: &mut Item<'_>, alloc: Global) -> usize {
    let mut calls: usize = 0;
    let _ = item.visit_array_elements(
        alloc,
        &mut |_| {
            calls = calls.saturating_add(1);
            Ok(None)
        },
    );
    let _ = item.visit_map_elements(
        alloc,
        &mut |_| {
            calls = calls.saturating_add(1);
            Ok((None, Some(Passes)))
        },
    );
    calls
}

fn entries(alloc: Global, text: &str) -> Result<usize, Fail> {
    let mut item = standalone_of(alloc, text)?;
    let inner = item.at_mut(&[]).ok_or("no item")?;
    Ok(entries_of(inner, alloc))
}

#[test]
fn visits_enter_the_deepest(rt: HostRuntime) -> Result<(), Fail> {
    let alloc = rt.alloc();
    let mut failures = Failures::new(alloc);
    for form in FORMS {
        failures.held(alloc, form.1, are_tags_commented(alloc, form))?;
        failures.held(alloc, form.1, are_literals_commented(alloc, form))?;
        failures.held(alloc, form.1, are_entries_called(alloc, form))?;
    }
    failures.end()
}

fn are_tags_commented(alloc: Global, form: &Form) -> Result<bool, Fail> {
    let deepest = nested(alloc, form, INSIDE, form.2)?;
    let told = tags_commented(alloc, deepest.as_str());
    is_nested(alloc, told, form, INSIDE, form.3)
}

fn are_literals_commented(alloc: Global, form: &Form) -> Result<bool, Fail> {
    let deepest = nested(alloc, form, INSIDE, form.2)?;
    let told = literals_commented(alloc, deepest.as_str());
    let inside = if form.5 { COMMENTED } else { INSIDE };
    is_nested(alloc, told, form, inside, form.2)
}

fn are_entries_called(alloc: Global, form: &Form) -> Result<bool, Fail> {
    let deepest = nested(alloc, form, INSIDE, form.2)?;
    Ok(entries(alloc, deepest.as_str())? == form.4)
}
