// The two forms of a table, chosen by word 0: what they mean is known here and in `tokens`. Who calls the lookup asks only whether there are tags.
ghost use Rattle.std.specs.Prelude.{◌≡◌};
ghost use Rattle.rules.specs.Forms.{form_good, tagged, mixed as mixed_key, tag_from};

use rules::Header;

// "any but 1 and 2" is refused.
pub fn form_good(form: u64) -> bool
    ensures { result ≡ form_good form }
{
    if form == 1 {
        return true;
    }
    form == 2
}

// "Form 2 also keeps an eight-bit tag for each taken slot in the token word"
pub fn has_tags(h: Header) -> bool
    ensures { result ≡ tagged h }
{
    h.form == 2
}

// "In form 2, before hashing, a key is combined by exclusive or with itself divided by 2^32."
pub fn mixed(h: Header, key: u64) -> u64
    ensures { result ≡ mixed_key h key }
{
    if has_tags(h) {
        return key ^ (key / 4294967296);
    }
    key
}

// The tag of a key, from the product of its hash 1: "divided by 2^24, modulo 256"; 0 where slots have no tags.
pub fn tag_from(h: Header, product: u64) -> u64
    ensures { result ≡ tag_from h product }
{
    if has_tags(h) {
        return product / 16777216 % 256;
    }
    0
}
