// The words of an intermediate hash value, which are also the working variables, and the functions of FIPS 180-4 on words.
ghost use Rattle.std.specs.Prelude.{◌≡◌, ◌+◌, ◌<◌, bit_xor};
ghost use Rattle.compression.specs.Fips as Fips;

#[derive(Clone, Copy)]
pub struct Words {
    pub a: u32,
    pub b: u32,
    pub c: u32,
    pub d: u32,
    pub e: u32,
    pub f: u32,
    pub g: u32,
    pub h: u32,
}

// Ch and Maj with an operation less than the standard's form has.
pub fn ch(x: u32, y: u32, z: u32) -> u32
    ensures { result ≡ Fips.Ch x y z }
{
    z ^ (x & (y ^ z))
}

pub fn maj(x: u32, y: u32, z: u32) -> u32
    ensures { result ≡ Fips.Maj x y z }
{
    ((x ^ y) & (y ^ z)) ^ y
}

// The sums of rotations, one rotation shared by two terms: a third shared as well would make the rounds wait for one another.
pub fn upper_sigma0(x: u32) -> u32
    ensures { result ≡ Fips.Σ₀ x }
{
    rotations::<2, 11>(x) ^ x.rotate_right(22)
}

pub fn upper_sigma1(x: u32) -> u32
    ensures { result ≡ Fips.Σ₁ x }
{
    rotations::<6, 5>(x) ^ x.rotate_right(25)
}

pub fn lower_sigma0(x: u32) -> u32
    ensures { result ≡ Fips.σ₀ x }
{
    rotations::<7, 11>(x) ^ (x >> 3)
}

pub fn lower_sigma1(x: u32) -> u32
    ensures { result ≡ Fips.σ₁ x }
{
    rotations::<17, 2>(x) ^ (x >> 10)
}

// The rotations by A and by A + B, summed.
fn rotations<const A: u32, const B: u32>(x: u32) -> u32
    requires { (0 < A) × (0 < B) × (A + B < 32) }
    ensures { result ≡ bit_xor (Fips.rotr A x) (Fips.rotr (A + B) x) }
{
    (x ^ x.rotate_right(B)).rotate_right(A)
}
