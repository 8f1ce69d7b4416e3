//! Laws of texts that are formatted.
ghost use Rattle.cbor_edn.specs.Format.{FormattedOnce, FormatsSameItems};

/// A text is formatted in one way, and what is written has the same items.
pub fn formats_same_items()
    ensures once { FormattedOnce }
    ensures items { FormatsSameItems }
{}
