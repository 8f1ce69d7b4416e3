//! What holds of the definitions that the contracts cite. These functions do nothing.
ghost use Rattle.std.specs.Prelude.{List, ℕ, All, ◌<◌};
ghost use Rattle.cbor_edn_parts.specs.space.Comments.{OneCommentsOf, CutAtComma};
ghost use Rattle.cbor_edn_parts.specs.LeafLaws.{SpaceTexts, NumberTexts, IndicatorTexts, LiteralTexts, DecodedLiterals};
ghost use Rattle.cbor_edn_parts.specs.space.SpacingLaws.{StaysOfKind, ForgetsColumn, NotesAreSpace, NotesInFront};

/// The tests and automata of space texts take exactly the texts of the grammar.
pub fn space_texts()
    ensures { (text : List ℕ) → SpaceTexts text }
{}

/// The test and the automaton of numbers take exactly the numbers of the grammar, and the reader of integers answers exactly
/// the integer of a text.
pub fn number_texts()
    ensures { (text : List ℕ) → NumberTexts text }
{}

/// What is read as an encoding indicator is its text, and the text of one is read as that one in front of all that may
/// follow it.
pub fn indicator_texts()
    ensures { (text : List ℕ) → IndicatorTexts text }
{}

/// The tests and automata of quoted texts and dots take exactly those of the grammar, and the readers answer exactly the
/// content of a literal, its kind, and whether it is one of those that have contents.
pub fn literal_texts()
    ensures { (text : List ℕ) → LiteralTexts text }
{}

/// What decoded strings are printed as stands for them.
pub fn decoded_literals()
    ensures { (bytes : List ℕ) → All (λ b. b < 256) bytes → DecodedLiterals bytes }
{}

/// What the definitions say of one space text: its comments, its comma, and what each column of the table makes of it; and the note of a
/// comment is space.
pub fn space_layouts()
    ensures comments { (text : List ℕ) → OneCommentsOf text }
    ensures comma { (x y : List ℕ) → CutAtComma x y }
    ensures kinds { StaysOfKind }
    ensures columns { ForgetsColumn }
    ensures notes { NotesAreSpace }
    ensures in_front { NotesInFront }
{}
