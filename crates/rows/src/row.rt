// How rows of bits lie in words: lowest bit first, with the bits past the end as 0.

ghost use Rattle.std.specs.Prelude.{◌≡◌};
ghost use Rattle.rows.specs.Rows.{width as words_taken};

// How many words a row of `r` bits takes.
pub fn width(r: u32) -> u32
    ensures { result ≡ words_taken r }
{
    r.div_ceil(32)
}
