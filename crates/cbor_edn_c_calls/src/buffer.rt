//! A caller's room.
ghost use Rattle.std.specs.Prelude.{◌≡◌, true, false};
ghost use Rattle.cbor_edn_c_calls.specs.Buffers.{HasNoRoom, IsPutFront, IsPutWhole};

/// Writes as many bytes as fit at the front of a room, and leaves the rest of it.
pub fn put_front(bytes: &[u8], buffer: &mut [u8])
    ensures { IsPutFront bytes.now buffer.old buffer.new }
{
    let count = bytes.len().min(buffer.len());
    buffer[..count].copy_from_slice(&bytes[..count]);
}

/// Writes bytes at the front of a room where all of them fit, and answers whether they did; else the room stays.
pub fn put_whole(bytes: &[u8], buffer: &mut [u8]) -> bool
    ensures whole { result ≡ true → IsPutWhole bytes.now buffer.old buffer.new }
    ensures none { result ≡ false → HasNoRoom bytes.now buffer.old buffer.new }
{
    if bytes.len() > buffer.len() {
        return false;
    }
    put_front(bytes, buffer);
    true
}
