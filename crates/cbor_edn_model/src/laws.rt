//! Laws: each function's contract is one, and its body does nothing.
ghost use Rattle.cbor_edn_model.specs.layout.BareLaws.{WithoutIndicatorsIsBare, WithoutIndicatorsStaysValid, BareMeans};
ghost use Rattle.cbor_edn_model.specs.cbor.CborLaws.{OneEncoding, ItemMeans, SpelledMeans};
ghost use Rattle.cbor_edn_model.specs.layout.Fewer.{FewerMean};
ghost use Rattle.cbor_edn_model.specs.layout.LayoutLaws.{KeepsItems, StaysValid, SpellsTheSame, CommentKeepsItems, CommentStaysValid, ForgetsLayout, SameTwice, DecodedStays, OneSingleLine, MeansTheSame};
ghost use Rattle.cbor_edn_model.specs.text.TextLaws.{ItemsAndSpaces, SpelledByTrees, UniqueItems, UniqueSpaces};
ghost use Rattle.cbor_edn_model.specs.tree.ConstructedLaws.{LiteralIsAnswered};

/// A text spells at most one list of items, and has one tree.
#[tactic(auto, using(crate::proofs::lemmas::text::GrammarLaws::unique_items, crate::proofs::lemmas::text::GrammarLaws::unique_spaces))]
pub fn unique_reading()
    ensures items { UniqueItems }
    ensures spaces { UniqueSpaces }
{}

/// What a text spells are the items of a tree with that text, and what a tree's text spells are its items.
#[tactic(auto, using(crate::proofs::lemmas::text::GrammarLaws::spelled_by_trees))]
pub fn spelled_by_trees()
    ensures { SpelledByTrees }
{}

/// Trees are the same exactly where their items are the same and their spaces are: what `==` and `clone` promise of trees, they
/// promise of these two.
#[tactic(auto, using(crate::proofs::lemmas::text::ItemsAndSpaces::items_and_spaces))]
pub fn items_and_spaces()
    ensures { ItemsAndSpaces }
{}

/// One byte string encodes at most one value, one value has at most one encoding, and no encoding begins another. A value has the width
/// of each head.
pub fn one_encoding()
    ensures { OneEncoding }
{}

/// The item that a value is decoded as means this value.
pub fn item_means()
    ensures { ItemMeans }
{}

/// Whatever is spelled like the item of a value means this value, and whatever is spelled like the items of values means these.
pub fn spelled_means()
    ensures { SpelledMeans }
{}

/// A delimiter policy and a comment change spaces alone, and leave each of them in its set, so that the text spells the same items.
pub fn layouts_keep_items()
    ensures items { KeepsItems }
    ensures valid { StaysValid }
    ensures spelled { SpellsTheSame }
    ensures comment { CommentKeepsItems }
    ensures comment_valid { CommentStaysValid }
{}

/// A policy forgets an earlier one that kept the comments: twice is once.
pub fn layouts_forget()
    ensures earlier { ForgetsLayout }
    ensures twice { SameTwice }
{}

/// Decoded items have the spaces of a single line, and mean their value after any policies.
pub fn decoded_layout()
    ensures meaning { MeansTheSame }
    ensures itself { DecodedStays }
    ensures one_tree { OneSingleLine }
{}

/// Removal of indicators leaves the bare items, and where items meant a value these mean one that is the same but for its heads. So do
/// those that are left where it stops on its way.
pub fn bare_items()
    ensures items { WithoutIndicatorsIsBare }
    ensures valid { WithoutIndicatorsStaysValid }
    ensures meaning { BareMeans }
    ensures stopped { FewerMean }
{}

/// Of an item that `new_application_literal` made, `get_application_literal` answers the prefix and the text that it was made of.
pub fn literal_is_answered()
    ensures { LiteralIsAnswered }
{}
