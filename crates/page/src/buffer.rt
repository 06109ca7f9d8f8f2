// `Page`: a lent buffer that is filled from the front.
// What there is no room for is cut off, and the page remembers it; the bytes behind the text stay as they were.
// The caller lends the buffer and reads it afterwards, so the length of the text stands beside it.
ghost use Rattle.std.specs.Prelude.{◌≤◌, length};

#[derive(Drop)]
pub struct Page<'a> {
    pub(crate) buffer: &'a mut [u8],
    pub(crate) len: usize,
    // No Option of the length: the text before a cut stays, and each put would then ask twice, for a cut and for room.
    pub(crate) whole: bool,
    ghost inside: { len ≤ length buffer.now },
}
