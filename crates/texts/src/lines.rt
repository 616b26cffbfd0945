ghost use Rattle.std.specs.Prelude.{◌+◌, ◌^◌, ◌<◌, length};

mod reads;

pub use reads::check_whole;

/// The lines of a text that are still to be read, and how many have been.
#[derive(Drop)]
pub struct Lines<'a> {
    rest: &'a [u8],
    taken: usize,
    ghost bounded: { taken + length rest.now < 2 ^ 64 },
}
