//! How a call ends.
ghost use Rattle.std.specs.Prelude.{◌≡◌};
ghost use Rattle.cbor_edn_c_calls.specs.Statuses.{fault_number, status_number, text_fault};

use cbor_edn_parts::base::error::ParseError;

/// Why an input has no output.
#[derive(Clone, Copy)]
pub enum CallFault {
    /// The text is no UTF-8.
    NotUtf8,
    /// The text is no EDN.
    InvalidText,
    /// The bytes are no encodings.
    InvalidCbor,
    /// A character is no hexadecimal digit and no space, or there is an odd number of digits.
    InvalidHex,
    /// What the text says has no encoding.
    NoEncoding,
    /// Memory ran out.
    OutOfMemory,
    /// The text nests too deep, or what the bytes encode.
    TooDeep,
}

impl CallFault {
    /// The fault of a text that is refused so.
    pub fn of_text(error: &ParseError) -> CallFault
        ensures { result ≡ text_fault error.now }
    {
        if error.too_deep() {
            CallFault::TooDeep
        } else {
            CallFault::InvalidText
        }
    }
}

/// How a call ended.
#[derive(Clone, Copy)]
pub enum Status {
    /// The output was written.
    Done,
    /// The output is longer than its room.
    NoRoom,
    /// A number of the call is out of its range.
    BadCall,
    /// The input has no output.
    Fault(CallFault),
}

fn fault_number(fault: CallFault) -> u32
    ensures { result ≡ fault_number fault }
{
    match fault {
        CallFault::NotUtf8 => 3,
        CallFault::InvalidText => 4,
        CallFault::InvalidCbor => 5,
        CallFault::InvalidHex => 6,
        CallFault::NoEncoding => 7,
        CallFault::OutOfMemory => 8,
        CallFault::TooDeep => 9,
    }
}

impl Status {
    /// The number that a caller in C is answered: 0 for `Done`, 1 for `NoRoom`, 2 for `BadCall`, and 3 to 9 for a fault.
    pub fn number(self) -> u32
        ensures { result ≡ status_number self }
    {
        match self {
            Status::Done => 0,
            Status::NoRoom => 1,
            Status::BadCall => 2,
            Status::Fault(fault) => fault_number(fault),
        }
    }
}
