// The pen itself.
ghost use Rattle.std.specs.Prelude.{◌≤◌, length};

/// A text that grows from the front of a lent buffer. The buffer keeps its length, and behind the text it is as it was.
#[derive(Drop)]
pub struct Pen<'a> {
    /// The buffer.
    pub buf: &'a mut [u8],
    /// The place behind the text: its length, in bytes.
    pub at: usize,
    // the place is one in the buffer, or the one behind it
    ghost inside: { at ≤ length buf.now },
}
