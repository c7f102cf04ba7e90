// The sides of a picture.
ghost use Rattle.std.specs.Prelude.{◌≡◌, ◌*◌, ◌≤◌};
ghost use Rattle.refuse.specs.Shape.{Sides};

// Sides of 2 to 2,048 each.
#[derive(Clone, Copy)]
pub struct Size {
    pub width: usize,
    pub height: usize,
    pub ghost fits: { Sides width height },
}

impl Size {
    // How many samples a picture of this size has.
    pub fn area(self) -> usize
        ensures { (result ≡ self.width * self.height) × (result ≤ 4194304) }
    {
        self.width * self.height
    }
}
