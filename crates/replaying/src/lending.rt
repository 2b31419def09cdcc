// Lent words and bytes, of which a part is used.
ghost use Rattle.std.specs.Prelude.{◌≡◌, min};

// As many as are asked for, or all if there are fewer.
pub fn least(asked: usize, there: usize) -> usize
    ensures { result ≡ min asked there }
{
    asked.min(there)
}
