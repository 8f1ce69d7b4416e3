//! What is told of a text that is no EDN: where, of which kind, and what beside it.

/// A part of a text: the bytes of these offsets from 0, without the last one.
#[derive(Clone, Copy)]
pub struct Span {
    pub from: usize,
    pub to: usize,
}

/// What opens an array, a map, the content of a tag or of `simple`, a string of indefinite length, and embedded items.
#[derive(Clone, Copy)]
pub enum Bracket {
    /// `[`
    Square,
    /// `{`
    Curly,
    /// `(` behind a number or behind `simple`
    Round,
    /// `(_`
    Stream,
    /// `<<`
    Embedded,
}

/// What had to stand at the span.
#[derive(Clone, Copy)]
pub enum Wanted {
    Item,
    /// An item or what closes the bracket. In a map an item is a key.
    ItemOrEnd(Bracket),
    Text,
    Value,
    Colon,
    /// What closes the bracket.
    End(Bracket),
    /// A comma or what closes the bracket.
    CommaOrEnd(Bracket),
    CommaOrSpace,
    /// At the end of a text that ends in a comment.
    LineFeed,
    /// `(` behind `simple`.
    Argument,
    /// A digit behind the subject: a sign, a point.
    Digit,
    /// The first digit of a number of another base, behind the subject.
    DigitOf(Base),
    /// A digit of the exponent that the subject ends in.
    DigitOfExponent,
    /// The exponent of a hexadecimal number with a point, which is the subject.
    Exponent,
    /// `_` behind `(`.
    StreamMark,
    /// A second `<`.
    SecondLess,
    /// A second `>`.
    SecondGreater,
    /// A third dot.
    ThirdDot,
    /// A space behind the subject, an indicator of a list.
    Space,
    /// A string behind a plus sign.
    TextBehindPlus,
}

/// What is open.
#[derive(Clone, Copy)]
pub enum Unclosed {
    /// A bracket, at the end of the text.
    Never(Bracket),
    /// A bracket, at what closes one further out.
    Before(Bracket),
    Text,
    Comment,
}

/// What a token runs into.
#[derive(Clone, Copy)]
pub enum Front {
    /// An item, in front of the span.
    Item,
    /// A number, the subject.
    Number,
}

#[derive(Clone, Copy)]
pub enum Base {
    Hexadecimal,
    Octal,
    Binary,
}

/// What is wrong with the prefix of a literal.
#[derive(Clone, Copy)]
pub enum QuoteFault {
    /// Another quote than a single one stands behind it.
    NotSingle,
    /// It has capitals and small letters.
    Mixed,
}

/// Why a number is none of a tag.
#[derive(Clone, Copy)]
pub enum TagFault {
    Sign,
    NotDecimal,
    LeadingZero,
    TooLarge,
}

#[derive(Clone, Copy)]
pub enum IndicatorFault {
    Unknown,
    /// `_` among digits, as other languages group them.
    Groups,
    /// Behind a word that takes none, the subject.
    NotTaken,
}

#[derive(Clone, Copy)]
pub enum EscapeFault {
    Unknown,
    LineEnd,
    FourDigits,
    NoDigit,
    Braces,
    TooLarge,
    /// Braces with the number of a surrogate.
    Surrogate,
    HighAlone,
    LowAlone,
}

/// A control character, and what it stands in.
#[derive(Clone, Copy)]
pub enum Control {
    TabInText,
    InText,
    InComment,
}

/// A character with which no token begins.
#[derive(Clone, Copy)]
pub enum Strange {
    Control,
    NoBreakSpace,
    ByteOrderMark,
    ZeroWidthSpace,
    WideSpace,
    CurlyDouble,
    CurlySingle,
    Dash,
    MinusSign,
    WideComma,
    WideColon,
    Other,
}

/// Of which kind a fault is: it has words of its own.
#[derive(Clone, Copy)]
pub enum Kind {
    /// Something else had to stand at the span.
    Expected(Wanted),
    Unclosed(Unclosed),
    /// The span closes another bracket than the innermost that is open.
    Crossed(Bracket),
    /// The span closes nothing.
    Unopened,
    RunsOn(Front),
    /// The span is a word that EDN does not have.
    Word,
    Quote(QuoteFault),
    /// The span is no digit of the base of the number in which it stands.
    Digit(Base),
    /// The span is a number in front of `(` that is none of a tag.
    Tag(TagFault),
    Indicator(IndicatorFault),
    Escape(EscapeFault),
    Control(Control),
    Character(Strange),
    /// None of these.
    Other,
}

/// What a second place of a finding is.
#[derive(Clone, Copy)]
pub enum Role {
    /// A bracket that is open.
    Open(Bracket),
    /// The bracket that is to be closed.
    ToBeClosed(Bracket),
    /// The key of a pair.
    Key,
    /// A number that is not whole.
    NumberBegins,
    /// A number in which another digit than one of its base stands.
    InNumber,
    /// The opening mark of a comment.
    CommentBegins,
    /// The opening quote of a string that ends in the line of the fault.
    TextBegins,
    /// A bracket that is closed in the line of `at`, which is indented less than its own.
    IndentedLess,
    /// The same, but indented more.
    IndentedMore,
}

/// A second place. `at` is an offset in the line that its words name.
#[derive(Clone, Copy)]
pub struct Note {
    pub role: Role,
    pub span: Span,
    pub at: usize,
}

/// A word of EDN that is meant by another one.
#[derive(Clone, Copy)]
pub enum Name {
    Null,
    True,
    False,
    Undefined,
    NotANumber,
    Infinity,
    NegativeInfinity,
}

/// What people may do about it.
#[derive(Clone, Copy)]
pub enum Hint {
    /// EDN writes the word so.
    Write(Name),
    KeysAreQuoted,
    TextsAreQuoted,
    /// What runs on behind a number is a text in quotes.
    NumbersEnd,
    /// A quote in front of the span is missing.
    QuoteMissing,
    TagsAreNumbers,
    /// `//` is a whole comment.
    EmptyComment,
    /// How comments are written.
    Comments,
    CommentEnds,
    OneComma,
    NoFirstComma,
    PairsInMap,
    KeyAndValue,
    SpaceBetweenPairs,
    ColonNotEqual,
    QuoteInText,
    QuoteInBytes,
    PlusJoins,
    SignAndDigits,
    NoSpaceBeforeRound,
    SimpleValue,
    StreamOrTag,
    EmbeddedItems,
    Strings,
    SingleQuotes,
    OneCase,
    Indicators,
    Ellipsis,
    TimeLiteral,
    AddressLiteral,
    SpaceBeforePlus,
    Tab,
    Backslash,
    LinesGoOn,
    BracesOfEscape,
    Pair,
    ByNumber,
    WriteSpace,
    WriteDouble,
    WriteSingle,
    WriteMinus,
    WriteComma,
    WriteColon,
    Remove,
    WithoutMark,
}

/// What to write, so that the fault goes away or a later one is told.
#[derive(Clone, Copy)]
pub enum Fix {
    /// This text in place of the span.
    Replace(Span, &'static str),
    /// The span between double quotes.
    Quote(Span),
}

/// A fault of a text. Its words and hints quote nothing: they name the span and the subject.
#[derive(Clone, Copy)]
pub struct Finding {
    pub kind: Kind,
    /// What is at fault. It is empty where something is missing at the end of the text.
    pub span: Span,
    /// What the words quote beside the span.
    pub subject: Option<Span>,
    /// What the fault stands in.
    pub context: Option<Note>,
    /// The bracket that is to be closed, where another one is open.
    pub outer: Option<Note>,
    /// What the lines say: brackets that are indented otherwise, or a string over several lines.
    pub layout: Option<Note>,
    pub hint: Option<Hint>,
    pub fix: Option<Fix>,
}
