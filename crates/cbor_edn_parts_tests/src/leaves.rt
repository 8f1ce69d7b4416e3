//! The leaves of a tree at a place of a text: spaces and encoding indicators, and the locations of refusals.
ghost use Rattle.std.specs.Str.{IsCharBoundary};
ghost use Rattle.cbor_edn_parts.specs.internal.Scans.{ScanLands};
ghost use Rattle.cbor_edn_parts.specs.internal.Input.{text_bytes};

use cbor_edn_expect::failures::Failures;
use cbor_edn_expect::{expect, expect_row};
use cbor_edn_parts::base::error::Refusal;
use cbor_edn_parts::base::indicator::{Indicator, indicator_at};
use cbor_edn_parts::base::input::Input;
use cbor_edn_parts::base::looks::Looks;
use cbor_edn_parts::number::{Number, number_start};
use cbor_edn_parts::space::policy::{DelimiterPolicy, Spacing};
use cbor_edn_parts::space::{
    ItemEnd, ListEnd, MandatorySpace, Separator, Space, separator_behind, space_at, space_behind,
};
use cbor_edn_parts::string::{Ellipsis, Literal, ellipsis_at, literal_at};
use std::alloc::{AllocError, Global};
use std::test::Fail;

/// What a text is read as at a place.
trait AnyLeaf: PartialEq + Drop {
    fn copied(&self) -> Result<Self, AllocError>;

    fn told(&self) -> &str;
}

impl<'a> AnyLeaf for Space<'a> {
    fn copied(&self) -> Result<Space<'a>, AllocError> {
        self.clone()
    }

    fn told(&self) -> &str {
        self.as_str()
    }
}

impl<'a> AnyLeaf for MandatorySpace<'a> {
    fn copied(&self) -> Result<MandatorySpace<'a>, AllocError> {
        self.clone()
    }

    fn told(&self) -> &str {
        self.as_str()
    }
}

impl<'a> AnyLeaf for ListEnd<'a> {
    fn copied(&self) -> Result<ListEnd<'a>, AllocError> {
        self.clone()
    }

    fn told(&self) -> &str {
        self.as_str()
    }
}

impl<'a> AnyLeaf for Separator<'a> {
    fn copied(&self) -> Result<Separator<'a>, AllocError> {
        self.clone()
    }

    fn told(&self) -> &str {
        self.as_str()
    }
}

impl<'a> AnyLeaf for Number<'a> {
    fn copied(&self) -> Result<Number<'a>, AllocError> {
        self.clone()
    }

    fn told(&self) -> &str {
        self.as_str()
    }
}

impl<'a> AnyLeaf for Literal<'a> {
    fn copied(&self) -> Result<Literal<'a>, AllocError> {
        self.clone()
    }

    fn told(&self) -> &str {
        self.as_str()
    }
}

impl<'a> AnyLeaf for Ellipsis<'a> {
    fn copied(&self) -> Result<Ellipsis<'a>, AllocError> {
        self.clone()
    }

    fn told(&self) -> &str {
        self.as_str()
    }
}

/// Whether a leaf has this text, and equals its copy.
fn is_leaf<T: AnyLeaf>(leaf: Result<T, Fail>, wanted: &str) -> Result<bool, Fail> {
    let leaf = leaf?;
    let copy = leaf.copied()?;
    Ok(copy == leaf && leaf.told() == wanted)
}

/// Whether a leaf is another one.
fn is_other<T: AnyLeaf>(leaf: Result<T, Fail>, other: T) -> Result<bool, Fail> {
    Ok(leaf? != other)
}

/// A space or a separator, which a policy changes.
trait AnySpace: AnyLeaf {
    fn by(&self, alloc: Global, spacing: Spacing) -> Result<Self, AllocError>;
}

impl<'a> AnySpace for Space<'a> {
    fn by(&self, alloc: Global, spacing: Spacing) -> Result<Space<'a>, AllocError> {
        self.spaced(alloc, spacing)
    }
}

impl<'a> AnySpace for MandatorySpace<'a> {
    fn by(&self, alloc: Global, spacing: Spacing) -> Result<MandatorySpace<'a>, AllocError> {
        self.spaced(alloc, spacing)
    }
}

impl<'a> AnySpace for ListEnd<'a> {
    fn by(&self, alloc: Global, spacing: Spacing) -> Result<ListEnd<'a>, AllocError> {
        self.spaced(alloc, spacing)
    }
}

impl<'a> AnySpace for Separator<'a> {
    fn by(&self, alloc: Global, spacing: Spacing) -> Result<Separator<'a>, AllocError> {
        self.spaced(alloc, spacing)
    }
}

/// The text of a space or a separator by a column.
fn text_by<T: AnySpace>(
    alloc: Global,
    leaf: Result<T, Fail>,
    spacing: Spacing,
) -> Result<String, Fail> {
    let told = leaf?.by(alloc, spacing)?;
    Ok(String::from_str(alloc, told.told())?)
}

/// The space that a text begins with.
fn space_of(text: &str) -> Result<Space<'_>, Fail> {
    let text = Input::new(text);
    let (before, _) = space_at(&text, text.start(), &mut Looks::new())?;
    Ok(before)
}

fn mandatory_of(text: &str) -> Result<MandatorySpace<'_>, Fail> {
    Ok(space_of(text)?.into_mandatory().ok_or("no space")?)
}

/// The separator at a place.
fn separator<'a>(
    text: &Input<'a>,
    at: usize,
    looks: &mut Looks,
) -> Result<(ListEnd<'a>, usize), Refusal>
    requires { IsCharBoundary (text_bytes text.now) at }
    ensures { ScanLands (text_bytes text.now) at result }
{
    separator_behind(text, ItemEnd { at, space: None }, looks)
}

/// The separator that a text begins with.
fn separator_of(text: &str) -> Result<ListEnd<'_>, Fail> {
    let text = Input::new(text);
    let (end, _) = separator(&text, text.start(), &mut Looks::new())?;
    Ok(end)
}

fn between_of(text: &str) -> Result<Separator<'_>, Fail> {
    Ok(separator_of(text)?.into_separator().ok_or("no separator")?)
}

/// The number at a place, and the place behind it.
fn number_at<'a>(
    text: &Input<'a>,
    from: usize,
    looks: &mut Looks,
) -> Result<(Number<'a>, usize), Refusal>
    requires { IsCharBoundary (text_bytes text.now) from }
    ensures { ScanLands (text_bytes text.now) from result }
{
    number_start(text, from, looks).number(text, from, looks)
}

/// The number behind the separator that a text begins with.
fn number_behind(text: &str) -> Result<Number<'_>, Fail> {
    let text = Input::new(text);
    let (_, to) = separator(&text, text.start(), &mut Looks::new())?;
    let (number, _) = number_at(&text, to, &mut Looks::new())?;
    Ok(number)
}

const LEADING: &str = " /\u{e9}/ , # x\n1";

#[test]
fn spaces(rt: HostRuntime) -> Result<(), Fail> {
    let alloc = rt.alloc();
    let mut failures = Failures::new(alloc);
    failures.held(alloc, "space", is_leaf(space_of(LEADING), " /\u{e9}/ "))?;
    failures.held(
        alloc,
        "no space",
        is_other(space_of(LEADING), Space::empty()),
    )?;
    failures.held(
        alloc,
        "mandatory",
        is_leaf(mandatory_of(LEADING), " /\u{e9}/ "),
    )?;
    failures.held(
        alloc,
        "plain space",
        is_other(mandatory_of(LEADING), MandatorySpace::single()),
    )?;
    failures.held(
        alloc,
        "separator",
        is_leaf(separator_of(LEADING), " /\u{e9}/ , # x\n"),
    )?;
    failures.held(
        alloc,
        "between",
        is_leaf(between_of(LEADING), " /\u{e9}/ , # x\n"),
    )?;
    failures.held(alloc, "number", is_leaf(number_behind(LEADING), "1"))?;
    failures.end()
}

#[test]
fn plain_spaces(rt: HostRuntime) -> Result<(), Fail> {
    let alloc = rt.alloc();
    expect_row(alloc, "space", Space::single().as_str(), " ")?;
    expect_row(alloc, "mandatory", MandatorySpace::single().as_str(), " ")?;
    expect_row(alloc, "comma", Separator::comma().as_str(), ",")?;
    expect_row(alloc, "and space", Separator::comma_space().as_str(), ", ")
}

#[test]
fn plain_spaces_as_mandatory_ones(_rt: HostRuntime) -> Result<(), Fail> {
    expect("no space", Space::empty().into_mandatory() == None)?;
    expect(
        "a space",
        Space::single().into_mandatory() == Some(MandatorySpace::single()),
    )?;
    expect("no comma", ListEnd::empty().into_separator() == None)
}

/// Texts, a column, and the space and the mandatory space that they begin with by it, from the table of
/// `parts/specs/Spacing.antt`.
const SPACES: &[(&str, Spacing, &str, &str)] = &[
    (" /a/ # b\n\n ", Spacing::Least, "", " "),
    (" /a/ # b\n\n ", Spacing::Comments, "/a/ # b\n", "/a/ # b\n"),
    (" /a/ # b\n\n ", Spacing::OneLine, "/a/ # b\n", "/a/ # b\n"),
    (
        " /a/ # b\n\n ",
        Spacing::NewLine(2),
        "\n  /a/ # b\n",
        "\n  /a/ # b\n",
    ),
    (
        " /a/ # b\n\n ",
        Spacing::OneSpace,
        " /a/ # b\n",
        " /a/ # b\n",
    ),
    ("\t", Spacing::Least, "", " "),
    ("\t", Spacing::Comments, "", " "),
    ("\t", Spacing::OneLine, "", " "),
    ("\t", Spacing::NewLine(0), "\n", "\n"),
    ("\t", Spacing::OneSpace, " ", " "),
    (
        "\r/ # \u{e9}/\r",
        Spacing::Comments,
        "/ # \u{e9}/",
        "/ # \u{e9}/",
    ),
];

#[test]
fn columns_of_space(rt: HostRuntime) -> Result<(), Fail> {
    let alloc = rt.alloc();
    let mut failures = Failures::new(alloc);
    for &(text, spacing, optional, mandatory) in SPACES {
        let row = format!(in alloc; "{text} by {spacing:?}")?;
        let told = text_by(alloc, space_of(text), spacing);
        failures.told(alloc, row.as_str(), told, optional)?;
        let told = text_by(alloc, mandatory_of(text), spacing);
        failures.told(alloc, row.as_str(), told, mandatory)?;
    }
    failures.end()
}

/// Texts, a column, and the separator at an end and between two items that they begin with by it, from the same table.
const SEPARATORS: &[(&str, Spacing, &str, &str)] = &[
    (" /a/ , # b\n ", Spacing::Least, "", ","),
    (" /a/ , # b\n ", Spacing::Comments, "/a/# b\n", "/a/,# b\n"),
    (" /a/ , # b\n ", Spacing::OneLine, "/a/# b\n", "/a/, # b\n"),
    (
        " /a/ , # b\n ",
        Spacing::NewLine(2),
        "\n  /a/# b\n",
        "/a/,\n  # b\n",
    ),
    (
        " /a/ , # b\n ",
        Spacing::OneSpace,
        " /a/# b\n",
        " /a/,# b\n",
    ),
    ("/,/ ", Spacing::OneLine, "/,/", "/,/, "),
    (" ", Spacing::Least, "", ","),
    (" ", Spacing::Comments, "", ","),
    (" ", Spacing::OneLine, "", ", "),
    (" ", Spacing::NewLine(0), "\n", ",\n"),
    (" ", Spacing::OneSpace, " ", " ,"),
];

#[test]
fn columns_of_separators(rt: HostRuntime) -> Result<(), Fail> {
    let alloc = rt.alloc();
    let mut failures = Failures::new(alloc);
    for &(text, spacing, end, between) in SEPARATORS {
        let row = format!(in alloc; "{text} by {spacing:?}")?;
        let told = text_by(alloc, separator_of(text), spacing);
        failures.told(alloc, row.as_str(), told, end)?;
        let told = text_by(alloc, between_of(text), spacing);
        failures.told(alloc, row.as_str(), told, between)?;
    }
    failures.end()
}

/// Where there is no memory for so many spaces, that is told before any of them is written.
#[test]
fn endless_indents(rt: HostRuntime) -> Result<(), Fail> {
    let alloc = rt.alloc();
    expect("S", is_space_refused(alloc))?;
    expect("MandatorySpace", is_mandatory_refused(alloc))?;
    expect("Separator", is_between_refused(alloc))?;
    expect("ListEnd", is_separator_refused(alloc))
}

const ENDLESS: Spacing = Spacing::NewLine(usize::MAX);

fn is_space_refused(alloc: Global) -> bool {
    Space::empty().spaced(alloc, ENDLESS).is_err()
}

fn is_mandatory_refused(alloc: Global) -> bool {
    MandatorySpace::single().spaced(alloc, ENDLESS).is_err()
}

fn is_between_refused(alloc: Global) -> bool {
    Separator::comma().spaced(alloc, ENDLESS).is_err()
}

fn is_separator_refused(alloc: Global) -> bool {
    ListEnd::empty().spaced(alloc, ENDLESS).is_err()
}

/// Comments, and how they are written, by `parts/specs/Notes.antt`.
const NOTES: &[(&str, &str)] = &[
    ("c", "/ c /"),
    ("", "/  /"),
    ("\u{1}", "/   /"),
    ("a\tb\nc\rd\u{1f}", "/ a\tb\nc\rd  /"),
    ("\u{e9}\u{7f}\u{1f600}", "/ \u{e9}\u{7f}\u{1f600} /"),
    ("a/b\nc", "# a/b\n# c\n"),
    ("/\n", "# /\n# \n"),
    ("/\u{0}\u{e9}\r", "# / \u{e9}\r\n"),
];

#[test]
fn notes(rt: HostRuntime) -> Result<(), Fail> {
    let alloc = rt.alloc();
    let mut failures = Failures::new(alloc);
    for &(comment, wanted) in NOTES {
        let note = Space::note(alloc, comment)?;
        failures.row(alloc, comment, note.as_str(), wanted)?;
    }
    failures.end()
}

#[test]
fn indented(_rt: HostRuntime) -> Result<(), Fail> {
    let policy = DelimiterPolicy::IndentedRegularSpacing {
        base_indent: 0,
        indent_level: 4,
        max_width: 80,
    };
    expect("indented", DelimiterPolicy::indented() == policy)
}

/// The space and the separator behind the number that a text begins with, and where they end.
fn space_behind_number(text: &str) -> Result<(Space<'_>, usize), Fail> {
    let text = Input::new(text);
    let (_, item) = number_at(&text, text.start(), &mut Looks::new())?;
    let end = ItemEnd {
        at: item,
        space: None,
    };
    Ok(space_behind(&text, end, &mut Looks::new())?)
}

fn separator_behind_number(text: &str) -> Result<(ListEnd<'_>, usize), Fail> {
    let text = Input::new(text);
    let (_, item) = number_at(&text, text.start(), &mut Looks::new())?;
    let end = ItemEnd {
        at: item,
        space: None,
    };
    Ok(separator_behind(&text, end, &mut Looks::new())?)
}

#[test]
fn spaces_behind_items(rt: HostRuntime) -> Result<(), Fail> {
    let alloc = rt.alloc();
    let text = "1 /c/ , 2";
    let (before, to) = space_behind_number(text)?;
    expect_row(alloc, text, before.as_str(), " /c/ ")?;
    expect("end of the space", to == 6)?;
    let (between, to) = separator_behind_number(text)?;
    expect_row(alloc, text, between.as_str(), " /c/ , ")?;
    expect("end of the separator", to == 8)
}

fn literal_of(text: &str) -> Result<Literal<'_>, Fail> {
    let text = Input::new(text);
    let (literal, _) = literal_at(&text, text.start(), &mut Looks::new())?;
    Ok(literal)
}

/// The dots behind the literal that a text begins with.
fn ellipsis_behind(text: &str) -> Result<Ellipsis<'_>, Fail> {
    let text = Input::new(text);
    let (_, to) = literal_at(&text, text.start(), &mut Looks::new())?;
    let (ellipsis, _) = ellipsis_at(&text, to, &mut Looks::new())?;
    Ok(ellipsis)
}

#[test]
fn literals_and_ellipses(_rt: HostRuntime) -> Result<(), Fail> {
    let text = "h'\u{e9}'...";
    expect("literal", is_leaf(literal_of(text), "h'\u{e9}'")?)?;
    expect("dots", is_leaf(ellipsis_behind(text), "...")?)
}

/// The indicator that a text begins with, and how many bytes it takes.
fn indicator_of(text: &str) -> (Option<Indicator>, usize) {
    let text = Input::new(text);
    indicator_at(&text, text.start(), &mut Looks::new())
}

/// Texts, the indicator that they begin with, and its text, by the indicators of `docs/SUPPORTED.md`.
const INDICATORS: &[(&str, Indicator, &str)] = &[
    ("_ 1", Indicator::Indefinite, "_"),
    ("_i,", Indicator::Immediate, "_i"),
    ("_0]", Indicator::One, "_0"),
    ("_1", Indicator::Two, "_1"),
    ("_2:", Indicator::Four, "_2"),
    ("_33", Indicator::Eight, "_3"),
    ("_4", Indicator::Indefinite, "_"),
    ("_", Indicator::Indefinite, "_"),
];

#[test]
fn indicators(rt: HostRuntime) -> Result<(), Fail> {
    let alloc = rt.alloc();
    let mut failures = Failures::new(alloc);
    for &(text, indicator, word) in INDICATORS {
        failures.row(alloc, text, indicator.as_str(), word)?;
        let is_read = indicator_of(text) == (Some(indicator), word.len());
        failures.holds(alloc, text, is_read)?;
    }
    failures.end()?;
    expect("another letter", indicator_of("i") == (None, 0))?;
    expect("no text", indicator_of("") == (None, 0))
}

#[derive(Clone, Copy)]
enum Leaf {
    Number,
    Space,
    Separator,
    Literal,
    Ellipsis,
}

fn refusal_of(leaf: Leaf, text: &str) -> Option<Refusal> {
    let text = Input::new(text);
    let from = text.start();
    let mut looks = Looks::new();
    match leaf {
        Leaf::Number => number_at(&text, from, &mut looks).err(),
        Leaf::Space => space_at(&text, from, &mut looks).err(),
        Leaf::Separator => separator(&text, from, &mut looks).err(),
        Leaf::Literal => literal_at(&text, from, &mut looks).err(),
        Leaf::Ellipsis => ellipsis_at(&text, from, &mut looks).err(),
    }
}

/// Leaves, texts that begin with none, and the byte where that is seen, by the rule of `docs/DECISIONS.md`: where a token
/// can't go on, or the end of the text.
const REFUSALS: &[(Leaf, &str, usize)] = &[
    (Leaf::Number, "0x", 2),
    (Leaf::Space, "/\u{e9}\u{1}/", 3),
    (Leaf::Separator, " # no end", 9),
    (Leaf::Literal, "\"a\u{1}\"", 2),
    (Leaf::Ellipsis, "..", 2),
];

#[test]
fn places_of_refusals(rt: HostRuntime) -> Result<(), Fail> {
    let alloc = rt.alloc();
    let mut failures = Failures::new(alloc);
    for &(leaf, text, at) in REFUSALS {
        let is_there = refusal_of(leaf, text) == Some(Refusal::invalid(at));
        failures.holds(alloc, text, is_there)?;
    }
    failures.end()
}
