ghost use Rattle.std.specs.Prelude.{◌≤◌, length};

mod items;
mod lines;
mod numbers;
pub(crate) mod rows;

// A text, and the place up to which it is read.
#[derive(Drop)]
pub struct Reader<'a> {
    text: &'a [u8],
    at: usize,
    ghost within: { at ≤ length text.now },
}
