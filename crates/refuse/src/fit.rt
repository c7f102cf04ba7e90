// The tests behind refusals 1 to 3.
ghost use Rattle.std.specs.Prelude.{◌≡◌, Bool, true, false, ◌&&◌, ◌*◌, ◌≤◌};
ghost use Rattle.matte.specs.Layout.{eight};
ghost use Rattle.matte.specs.Picture.{side_fits, levels_fit};

// Both sides are 2 to 2,048.
pub fn sides_fit(w: usize, h: usize) -> bool
    ensures { result ≡ (side_fits w && side_fits h) }
{
    (2..=2048).contains(&w) && (2..=2048).contains(&h)
}

// The number after the last level.
const END: usize = 255;

// Levels are at most 254 and ascend strictly.
pub fn levels_fit(ks: &[u8]) -> bool
    ensures { result ≡ levels_fit eight ks.now }
{
    let mut low: usize = 0;
    for k in ks {
        let k = *k as usize;
        if k < low || END <= k {
            return false;
        }
        low = k + 1;
    }
    true
}
