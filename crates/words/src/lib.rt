// Arithmetic on words that the rules lean on: the product, the hash and powers of two.
// Each function is promised equal to a definition of specs/ that a reader of document 01 recognises.
#![tactic(auto)]

ghost use Rattle.std.specs.Prelude.{◌≡◌, ◌^◌, ◌<◌};
ghost use Rattle.words.specs.Product.{product_of, hash_of};

// a · b modulo 2^64, from half words: of the four partial products the highest vanishes modulo 2^64,
// and of the two middle ones only the low half stays.
pub fn product(a: u64, b: u64) -> u64
    ensures { result ≡ product_of a b }
{
    let a_low = a % 4294967296;
    let a_high = a / 4294967296;
    let b_low = b % 4294967296;
    let b_high = b / 4294967296;
    let low = a_low * b_low;
    let middle = std::num::wrapping_add_u64(a_low * b_high, a_high * b_low);
    let high = (middle % 4294967296) * 4294967296;
    std::num::wrapping_add_u64(low, high)
}

// The hash of a key by a multiplier: at most 32 bits.
pub fn hash(key: u64, multiplier: u64) -> u64
    ensures { (result ≡ hash_of key multiplier) × (result < 2 ^ 32) }
{
    product(key, multiplier) / 4294967296
}

// 2^e.
pub fn power(e: u64) -> usize
    requires { e < 64 }
    ensures { (result ≡ 2 ^ e) × (0 < result) }
{
    1usize << e
}
