//! What a command for files is to do.
ghost use Rattle.std.specs.Prelude.{◌≡◌};
ghost use Rattle.cbor_edn_command.specs.FileOptions.{plain as plain_steps, show_steps, format_steps, check_steps};

use crate::options::{Command, Options};

/// How many levels of embedded CBOR `show` shows where its words don't say.
pub const DEFAULT_LEVELS: usize = 8;

/// How many levels it shows at most.
pub const MOST_LEVELS: usize = 255;

/// A command for files, of which there may be several.
#[derive(Clone, Copy, Debug, PartialEq, Eq)]
pub enum FileCommand {
    /// The items that CBOR encodes are printed, with those in its byte strings.
    Show(ShowOptions),
    /// Each file gets the spaces of the indented layout.
    Format(FormatOptions),
    /// It is told of each file whether it is EDN that has an encoding, or CBOR.
    Check(CheckOptions),
}

/// How CBOR is shown. What can't be shown stays, some of it with a comment that says why.
#[derive(Clone, Copy, Debug, PartialEq, Eq)]
pub struct ShowOptions {
    /// The input is hexadecimal digits of CBOR.
    pub hex: bool,
    /// To how many levels byte strings that hold CBOR become embedded sequences, as `<<{1: -7}>>` in the place of `h'a10126'`. None is
    /// shown where it is 0.
    pub levels: usize,
    /// COSE messages (RFC 9052) get their names as comments, and those of their parts, header parameters and algorithms:
    /// `18([<<{1/ alg /: -7/ ES256 /}>>/ protected /, ..])/ COSE_Sign1 /`.
    pub names: bool,
    /// Bignums become integers, as `18446744073709551616` in the place of `2(h'010000000000000000')`.
    pub bignum_from_tags: bool,
    /// Each item of the sequence that is a map is taken for the claims set of a CWT, and so is a map that is shown as the payload of a
    /// COSE message: its keys get the names of their claims as comments, numbers that are times become literals, and keys of COSE in it
    /// are named.
    pub annotate_ccs: bool,
    /// How deep items may nest, in levels: each takes stack.
    pub limit: usize,
}

/// How a text is laid out.
#[derive(Clone, Copy, Debug, PartialEq, Eq)]
pub struct FormatOptions {
    /// Nothing is written but the names of the files that would change.
    pub only_lists: bool,
    /// Comments are left out.
    pub remove_comments: bool,
    /// Files are laid out whatever their names and bytes. Else one whose name ends in `.cbor`, or that is no text, is taken for none.
    pub force: bool,
    /// How deep items may nest, in levels: each takes stack.
    pub limit: usize,
}

/// What is looked for in a file.
#[derive(Clone, Copy, Debug, PartialEq, Eq)]
pub struct CheckOptions {
    /// Literals with a prefix count as tags 999, which have an encoding. Those of times and addresses have one anyway.
    pub apply_999: bool,
    /// Each file is CBOR. Else those are whose names end in `.cbor`.
    pub cbor: bool,
    /// How deep items may nest, in levels: each takes stack.
    pub limit: usize,
}

/// The options of a run that changes nothing.
fn plain(command: Command, limit: usize) -> Options
    ensures { result ≡ plain_steps command limit }
{
    Options {
        command,
        hex: false,
        annotate_tags: false,
        apply_999: false,
        aol_to_item: false,
        bignum_from_tags: false,
        annotate_ccs: false,
        remove_comments: false,
        preserve_space: false,
        limit,
    }
}

impl ShowOptions {
    /// The steps of the run that follow once byte strings are shown.
    pub fn steps(&self) -> Options
        ensures { result ≡ show_steps self.now }
    {
        Options {
            hex: self.hex,
            annotate_tags: true,
            bignum_from_tags: self.bignum_from_tags,
            annotate_ccs: self.annotate_ccs,
            ..plain(Command::Cbor2Diag, self.limit)
        }
    }
}

impl FormatOptions {
    /// The run that lays a text out.
    pub fn steps(&self) -> Options
        ensures { result ≡ format_steps self.now }
    {
        Options {
            remove_comments: self.remove_comments,
            ..plain(Command::Diag2Diag, self.limit)
        }
    }
}

impl CheckOptions {
    /// The run that has an output where a file of this kind is as it should be.
    pub fn steps(&self, cbor: bool) -> Options
        ensures { result ≡ check_steps self.now cbor }
    {
        if cbor {
            plain(Command::Cbor2Diag, self.limit)
        } else {
            Options {
                apply_999: self.apply_999,
                aol_to_item: true,
                ..plain(Command::Diag2Cbor, self.limit)
            }
        }
    }
}
