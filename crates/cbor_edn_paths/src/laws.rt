//! Laws over the definitions: functions that do nothing, whose contracts are the laws.
ghost use Rattle.cbor_edn_paths.specs.Examples.{NamesKeysByValue, LeadsSo};
ghost use Rattle.cbor_edn_paths.specs.PathLaws.{MapPairs, NumbersLeadThere, PathsReadBack};

/// Keys are one where they mean the same, however they are spelled: of `{0x10: 1, 1_1: 3}` the paths `{16}` and `{1}` lead to the values.
pub fn keys_are_values()
    ensures { NamesKeysByValue }
{}

/// Where paths of each form lead in a small map, and where they don't.
pub fn paths_lead_so()
    ensures { LeadsSo }
{}

/// The keys and values of a map are those that an accessor of its tree answers.
pub fn map_pairs()
    ensures { MapPairs }
{}

/// Whatever the path: where it leads to an item, the numbers that it answers lead there too.
pub fn numbers_lead_there()
    ensures { NumbersLeadThere }
{}

/// A text is that of one path at most: what is printed of a path is read as that path.
pub fn paths_read_back()
    ensures { PathsReadBack }
{}
