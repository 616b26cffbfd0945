ghost use Rattle.std.specs.Prelude.{◌^◌, ◌<◌};

mod writes;

/// Writes bytes one after another into a lent buffer and counts them. Bytes beyond the buffer's end are
/// only counted, so that writing into an empty buffer measures a text.
#[derive(Drop)]
pub struct Writer<'a> {
    buffer: &'a mut [u8],
    length: usize,
    ghost counted: { length < 2 ^ 64 },
}
