// Bytes at a buffer's front, and records: two bytes of length, then that many bytes.
ghost use Rattle.std.specs.Prelude.{◌≡◌, drop};
ghost use Rattle.codec.specs.Bytes.{be2};
ghost use Rattle.codec.specs.Frames.{body, Found};
ghost use Rattle.codec.specs.Written.{Wrote};

use refusal::Refusal;

// The bytes from the place `at` on; none behind the end.
pub fn bytes_from(bytes: &[u8], at: usize) -> &[u8]
    ensures { result.now ≡ drop at bytes.now }
{
    bytes.get(at..).unwrap_or(&[])
}

// Writes bytes to the buffer's front, if there is room; the rest of the buffer stays.
pub fn write_front(buffer: &mut [u8], part: &[u8]) -> Result<usize, Refusal>
    ensures { Wrote part.now buffer.old buffer.new result }
{
    let count = part.len();
    if buffer.len() < count {
        return Err(Refusal::Short);
    }
    buffer[0..count].copy_from_slice(part);
    Ok(count)
}

// The two bytes that stand before a body of that length.
pub fn frame_head(length: usize) -> [u8; 2]
    ensures { result ≡ be2 length }
{
    // The remainder is the number's low two bytes, so the cast loses nothing; `try_from` would need a case for what is above.
    let length = (length % 65536) as u16;
    length.to_be_bytes()
}

// The body of a record, if the bytes are one record and nothing more.
pub fn body_of(bytes: &[u8]) -> Option<&[u8]>
    ensures { Found result (body bytes.now) }
{
    let [hi, lo, body @ ..] = bytes else {
        return None;
    };
    let length = u16::from_be_bytes([*hi, *lo]);
    if usize::from(length) == body.len() {
        Some(body)
    } else {
        None
    }
}
