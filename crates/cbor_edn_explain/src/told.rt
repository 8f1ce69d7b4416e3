//! The words of kinds, second places and hints, as whole texts. In them `{span}`, `{subject}` stand for the text there in backticks,
//! `{found}` for what stands at the span, which may be the end of the text, `{number}` for the number of its character, `{line}` for a line,
//! `{word}` for the text at the span without backticks.
ghost use Rattle.std.specs.Prelude.{◌≡◌};
ghost use Rattle.cbor_edn_explain.specs.Told as told;

use crate::finding::{
    Base, Bracket, Control, EscapeFault, Front, Hint, IndicatorFault, Kind, Name, QuoteFault, Role,
    Strange, TagFault, Unclosed, Wanted,
};

/// The words of a kind.
pub fn words(kind: Kind) -> &'static str
    ensures { result.now ≡ told.words kind }
{
    match kind {
        Kind::Expected(wanted) => wanted_words(wanted),
        Kind::Unclosed(unclosed) => unclosed_words(unclosed),
        Kind::Crossed(bracket) => crossed_words(bracket),
        Kind::Unopened => "{span} closes nothing",
        Kind::RunsOn(Front::Item) => "expected `,` or a space before {found}",
        Kind::RunsOn(Front::Number) => "number {subject} runs into {span}",
        Kind::Word => "unknown word {span}",
        Kind::Quote(QuoteFault::NotSingle) => "{subject} takes single quotes",
        Kind::Quote(QuoteFault::Mixed) => "prefix {span} mixes capitals and small letters",
        Kind::Digit(base) => digit_words(base),
        Kind::Tag(fault) => tag_words(fault),
        Kind::Indicator(fault) => indicator_words(fault),
        Kind::Escape(fault) => escape_words(fault),
        Kind::Control(Control::TabInText) => "a tab in a string",
        Kind::Control(Control::InText) => "control character {number} in a string",
        Kind::Control(Control::InComment) => "control character {number} in a comment",
        Kind::Character(strange) => strange_words(strange),
        Kind::Other => "Invalid EDN",
    }
}

fn wanted_words(wanted: Wanted) -> &'static str
    ensures { result.now ≡ told.wanted_words wanted }
{
    match wanted {
        Wanted::Item => "expected an item, found {found}",
        Wanted::ItemOrEnd(bracket) => item_words(bracket),
        Wanted::Text => "expected a string, found {found}",
        Wanted::Value => "expected a value, found {found}",
        Wanted::Colon => "expected `:`, found {found}",
        Wanted::End(bracket) => end_words(bracket),
        Wanted::CommaOrEnd(bracket) => comma_words(bracket),
        Wanted::CommaOrSpace => "expected `,` or a space, found {found}",
        Wanted::LineFeed => "expected a line feed, found {found}",
        Wanted::Argument => "expected `(` behind `simple`, found {found}",
        Wanted::Digit => "expected a digit behind {subject}, found {found}",
        Wanted::DigitOf(base) => digit_of_words(base),
        Wanted::DigitOfExponent => "expected a digit of the exponent, found {found}",
        Wanted::Exponent => "expected an exponent `p0` behind {subject}, found {found}",
        Wanted::StreamMark => "expected `_` behind `(`, found {found}",
        Wanted::SecondLess => "expected `<<`, found {found}",
        Wanted::SecondGreater => "expected `>>`, found {found}",
        Wanted::ThirdDot => "expected three dots, found two",
        Wanted::Space => "expected a space behind {subject}, found {found}",
        Wanted::TextBehindPlus => "expected a string behind `+`, found {found}",
    }
}

fn item_words(bracket: Bracket) -> &'static str
    ensures { result.now ≡ told.item_words bracket }
{
    match bracket {
        Bracket::Square => "expected an item or `]`, found {found}",
        Bracket::Curly => "expected a key or `}`, found {found}",
        Bracket::Round => "expected an item or `)`, found {found}",
        Bracket::Stream => "expected a string or `)`, found {found}",
        Bracket::Embedded => "expected an item or `>>`, found {found}",
    }
}

fn end_words(bracket: Bracket) -> &'static str
    ensures { result.now ≡ told.end_words bracket }
{
    match bracket {
        Bracket::Square => "expected `]`, found {found}",
        Bracket::Curly => "expected `}`, found {found}",
        Bracket::Round | Bracket::Stream => "expected `)`, found {found}",
        Bracket::Embedded => "expected `>>`, found {found}",
    }
}

fn comma_words(bracket: Bracket) -> &'static str
    ensures { result.now ≡ told.comma_words bracket }
{
    match bracket {
        Bracket::Square => "expected `,` or `]`, found {found}",
        Bracket::Curly => "expected `,` or `}`, found {found}",
        Bracket::Round | Bracket::Stream => "expected `,` or `)`, found {found}",
        Bracket::Embedded => "expected `,` or `>>`, found {found}",
    }
}

fn digit_of_words(base: Base) -> &'static str
    ensures { result.now ≡ told.digit_of_words base }
{
    match base {
        Base::Hexadecimal => "expected a hexadecimal digit behind {subject}, found {found}",
        Base::Octal => "expected an octal digit behind {subject}, found {found}",
        Base::Binary => "expected a binary digit behind {subject}, found {found}",
    }
}

fn unclosed_words(unclosed: Unclosed) -> &'static str
    ensures { result.now ≡ told.unclosed_words unclosed }
{
    match unclosed {
        Unclosed::Never(bracket) => never_words(bracket),
        Unclosed::Before(bracket) => before_words(bracket),
        Unclosed::Text => "string is never closed",
        Unclosed::Comment => "comment is never closed",
    }
}

fn never_words(bracket: Bracket) -> &'static str
    ensures { result.now ≡ told.never_words bracket }
{
    match bracket {
        Bracket::Square => "`[` is never closed",
        Bracket::Curly => "`{` is never closed",
        Bracket::Round => "`(` is never closed",
        Bracket::Stream => "`(_` is never closed",
        Bracket::Embedded => "`<<` is never closed",
    }
}

fn before_words(bracket: Bracket) -> &'static str
    ensures { result.now ≡ told.before_words bracket }
{
    match bracket {
        Bracket::Square => "`[` is not closed before {span}",
        Bracket::Curly => "`{` is not closed before {span}",
        Bracket::Round => "`(` is not closed before {span}",
        Bracket::Stream => "`(_` is not closed before {span}",
        Bracket::Embedded => "`<<` is not closed before {span}",
    }
}

fn crossed_words(bracket: Bracket) -> &'static str
    ensures { result.now ≡ told.crossed_words bracket }
{
    match bracket {
        Bracket::Square => "{span} does not close `[`",
        Bracket::Curly => "{span} does not close `{`",
        Bracket::Round => "{span} does not close `(`",
        Bracket::Stream => "{span} does not close `(_`",
        Bracket::Embedded => "{span} does not close `<<`",
    }
}

fn digit_words(base: Base) -> &'static str
    ensures { result.now ≡ told.digit_words base }
{
    match base {
        Base::Hexadecimal => "{span} is no hexadecimal digit",
        Base::Octal => "{span} is no octal digit",
        Base::Binary => "{span} is no binary digit",
    }
}

fn tag_words(fault: TagFault) -> &'static str
    ensures { result.now ≡ told.tag_words fault }
{
    match fault {
        TagFault::Sign => "a tag's number has no sign",
        TagFault::NotDecimal => "a tag's number is decimal",
        TagFault::LeadingZero => "a tag's number has no leading zero",
        TagFault::TooLarge => "a tag's number is below 2^64",
    }
}

fn indicator_words(fault: IndicatorFault) -> &'static str
    ensures { result.now ≡ told.indicator_words fault }
{
    match fault {
        IndicatorFault::Unknown => "unknown indicator {span}",
        IndicatorFault::Groups => "`_` does not group digits",
        IndicatorFault::NotTaken => "{subject} takes no indicator",
    }
}

fn escape_words(fault: EscapeFault) -> &'static str
    ensures { result.now ≡ told.escape_words fault }
{
    match fault {
        EscapeFault::Unknown => "unknown escape {span}",
        EscapeFault::LineEnd => "`\\` before a line end",
        EscapeFault::FourDigits => "`\\u` needs four hexadecimal digits",
        EscapeFault::NoDigit => "`\\u{}` needs a hexadecimal digit",
        EscapeFault::Braces => "`\\u{` needs hexadecimal digits and `}`",
        EscapeFault::TooLarge => "{span} is past U+10FFFF",
        EscapeFault::Surrogate => "surrogate {span}",
        EscapeFault::HighAlone => "high surrogate {span} without a low one",
        EscapeFault::LowAlone => "low surrogate {span} without a high one",
    }
}

fn strange_words(strange: Strange) -> &'static str
    ensures { result.now ≡ told.strange_words strange }
{
    match strange {
        Strange::Control => "control character {number} between tokens",
        Strange::NoBreakSpace => "a no-break space ({number}) between tokens",
        Strange::ByteOrderMark => "a byte order mark ({number}) between tokens",
        Strange::ZeroWidthSpace => "a zero-width space ({number}) between tokens",
        Strange::WideSpace => "an ideographic space ({number}) between tokens",
        Strange::CurlyDouble | Strange::CurlySingle => "a curly quote {span} between tokens",
        Strange::Dash => "a dash {span} between tokens",
        Strange::MinusSign => "a minus sign {span} between tokens",
        Strange::WideComma => "a full-width comma {span} between tokens",
        Strange::WideColon => "a full-width colon {span} between tokens",
        Strange::Other => "{number} {span} begins no item",
    }
}

fn open_words(bracket: Bracket) -> &'static str
    ensures { result.now ≡ told.open_words bracket }
{
    match bracket {
        Bracket::Square => "`[` is open",
        Bracket::Curly => "`{` is open",
        Bracket::Round => "`(` is open",
        Bracket::Stream => "`(_` is open",
        Bracket::Embedded => "`<<` is open",
    }
}

fn outer_words(bracket: Bracket) -> &'static str
    ensures { result.now ≡ told.outer_words bracket }
{
    match bracket {
        Bracket::Square => "`[` is the one to be closed",
        Bracket::Curly => "`{` is the one to be closed",
        Bracket::Round => "`(` is the one to be closed",
        Bracket::Stream => "`(_` is the one to be closed",
        Bracket::Embedded => "`<<` is the one to be closed",
    }
}

fn name_words(name: Name) -> &'static str
    ensures { result.now ≡ told.name_words name }
{
    match name {
        Name::Null => "EDN writes `null`",
        Name::True => "EDN writes `true`",
        Name::False => "EDN writes `false`",
        Name::Undefined => "EDN writes `undefined`",
        Name::NotANumber => "EDN writes `NaN`",
        Name::Infinity => "EDN writes `Infinity`",
        Name::NegativeInfinity => "EDN writes `-Infinity`",
    }
}

/// The words of a hint.
pub fn hint_words(hint: Hint) -> &'static str
    ensures { result.now ≡ told.hint_words hint }
{
    match hint {
        Hint::Write(name) => name_words(name),
        Hint::KeysAreQuoted => "keys are quoted: `\"{word}\"`",
        Hint::TextsAreQuoted => "texts are quoted: `\"{word}\"`",
        Hint::NumbersEnd => "texts are quoted",
        Hint::QuoteMissing => "is a `\"` missing in front of it?",
        Hint::TagsAreNumbers => "a tag is a number: `1(..)`",
        Hint::EmptyComment => "`//` is an empty comment: write `# ..`",
        Hint::Comments => "a comment is `# ..` to the end of the line, or `/ .. /`",
        Hint::CommentEnds => "it ends at the next `/`",
        Hint::OneComma => "write one comma, or `null` for nothing",
        Hint::NoFirstComma => "no comma before the first",
        Hint::PairsInMap => "pairs stand in a map: `{..}`",
        Hint::KeyAndValue => "a map holds pairs `key: value`, `[..]` holds items",
        Hint::SpaceBetweenPairs => "`,` or a space stands between pairs",
        Hint::ColonNotEqual => "EDN writes `:`",
        Hint::QuoteInText => "a quote in a text is `\\\"`",
        Hint::QuoteInBytes => "a quote in a text is `\\'`",
        Hint::PlusJoins => "`+` joins strings",
        Hint::SignAndDigits => "no space behind the sign",
        Hint::NoSpaceBeforeRound => "no space before `(`",
        Hint::SimpleValue => "write `simple(32)`",
        Hint::StreamOrTag => "`(_ ..)` holds the chunks of a string, `1(..)` is a tag",
        Hint::EmbeddedItems => "`<<..>>` holds the encodings of items",
        Hint::Strings => "strings are `\"..\"` or `'..'`",
        Hint::SingleQuotes => "write `'..'` behind a prefix",
        Hint::OneCase => "a prefix has letters of one case",
        Hint::Indicators => "indicators are `_`, `_i`, `_0`, `_1`, `_2` and `_3`",
        Hint::Ellipsis => "`...` stands for what is left out",
        Hint::TimeLiteral => "write a time as `dt'..'`, or a text in quotes",
        Hint::AddressLiteral => "write an address as `ip'..'`",
        Hint::SpaceBeforePlus => "a space in front of `+` makes it the sign of a number",
        Hint::Tab => "write `\\t`",
        Hint::Backslash => "a backslash is `\\\\`",
        Hint::LinesGoOn => "a string goes on in the next line by itself",
        Hint::BracesOfEscape => "or braces: `\\u{41}`",
        Hint::Pair => "write `\\u{1F600}`, or a pair `\\ud83d\\ude00`",
        Hint::ByNumber => "write its number: `\\u{0}`",
        Hint::WriteSpace => "write a space",
        Hint::WriteDouble => "write `\"`",
        Hint::WriteSingle => "write `'`",
        Hint::WriteMinus => "write `-`",
        Hint::WriteComma => "write `,`",
        Hint::WriteColon => "write `:`",
        Hint::Remove => "remove it",
        Hint::WithoutMark => "save the file without it",
    }
}

/// The words of a second place: `{span}` is the text there.
pub fn note_words(role: Role) -> &'static str
    ensures { result.now ≡ told.note_words role }
{
    match role {
        Role::Open(bracket) => open_words(bracket),
        Role::ToBeClosed(bracket) => outer_words(bracket),
        Role::Key => "the key",
        Role::NumberBegins => "of the number that begins here",
        Role::InNumber => "in a number that begins here",
        Role::CommentBegins => "the comment begins here",
        Role::TextBegins => "the string that begins here ends in line {line}",
        Role::IndentedLess => "{span} is closed in line {line}, which is indented less",
        Role::IndentedMore => "{span} is closed in line {line}, which is indented more",
    }
}
