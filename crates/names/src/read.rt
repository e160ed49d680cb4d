// What the tables are read by.
ghost use Rattle.std.specs.Prelude.{◌≡◌, cond};

// A number of two bytes.
pub fn wide(x: u16) -> usize
    ensures { result ≡ x }
{
    usize::from(x)
}

// One of two numbers, by a test.
pub fn either(test: bool, yes: usize, no: usize) -> usize
    ensures { result ≡ cond test yes no }
{
    if test { yes } else { no }
}
