// A place in a file.
ghost use Rattle.std.specs.Prelude.{◌≤◌, length};

// A byte of a file, or its end.
#[derive(Clone, Copy)]
pub struct Cursor<'a> {
    pub bytes: &'a [u8],
    pub at: usize,
    pub ghost inside: { at ≤ length bytes.now },
}
