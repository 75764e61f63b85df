// Fletcher's two sums over bytes.
ghost use Rattle.std.specs.Prelude.{◌≡◌, [], ◌∷◌, ◌≤◌, length};
ghost use Rattle.blocks.specs.Fletcher.{check};
ghost use Rattle.blocks.specs.Block.{checked_length};

// Both sums are taken modulo 255.
const MODULUS: u32 = 255;

#[derive(Clone, Copy)]
pub struct Sums {
    pub first: u8,
    pub second: u8,
}

impl Sums {
    // The two bytes that end a block.
    pub fn bytes(self) -> [u8; 2]
        ensures { result ≡ self.first ∷ self.second ∷ [] }
    {
        [self.first, self.second]
    }
}

// The two sums over the bytes. They are no more than a block's check is over, so that both sums fit before they are reduced.
pub fn sums_of(bytes: &[u8]) -> Sums
    requires { length bytes.now ≤ checked_length }
    ensures { result.first ∷ result.second ∷ [] ≡ check bytes.now }
{
    let mut first: u32 = 0;
    let mut second: u32 = 0;
    for byte in bytes {
        first += u32::from(*byte);
        second += first;
    }
    Sums {
        first: (first % MODULUS) as u8,
        second: (second % MODULUS) as u8,
    }
}
