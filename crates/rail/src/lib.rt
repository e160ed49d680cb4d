// The writing rail: bytes, words and digits put into a lent buffer where writing stands. What is added is added whole: where there is no room
// for all of it, that is told and handed on, and the buffer stays as it was. A rail that does not write moves its place alone, which measures
// what is due.
#![tactic(auto)]

ghost use Rattle.std.specs.Prelude.{◌≡◌, [], ◌∷◌, List, ℕ};
ghost use Rattle.print.specs.Print.{decimal_of, hex_of};
ghost use Rattle.rail.specs.Words.{spaced};
ghost use Rattle.rail.specs.Rail.{next_place, Printed, Added};

// Where writing stands after so many bytes, in a buffer of a size: the place of the next byte, or none, where there was no room.
pub fn moved(size: usize, p: Option<usize>, len: usize) -> Option<usize>
    ensures { result ≡ next_place size p len }
{
    let n = p?;
    if size < n || size - n < len {
        return None;
    }
    Some(n + len)
}

// A rail over a lent buffer: where writing stands, and whether bytes are written or measured alone.
#[derive(Drop)]
pub struct Rail<'a> {
    pub buf: &'a mut [u8],
    pub write: bool,
    pub place: Option<usize>,
}

// What is printed whole, or not at all: its bytes, which may be added in several steps.
pub trait Piece {
    ghost bytes: { Self → List ℕ };

    // Adds its bytes, as far as there is room.
    fn add(&self, rail: &mut Rail)
        ensures { Added rail.old (bytes self.now) rail.new };
}

// A blank and a word.
#[derive(Drop)]
struct Word<'a>(&'a [u8]);

impl Piece for Word<'_> {
    ghost bytes = { λ w. spaced (w.0.now ∷ []) };

    fn add(&self, rail: &mut Rail) {
        rail.add(b" ");
        rail.add(self.0);
    }
}

impl Rail<'_> {
    // Adds bytes.
    pub fn add(&mut self, src: &[u8])
        ensures { Printed self.old src.now self.new }
    {
        let from = self.place;
        self.place = moved(self.buf.len(), from, src.len());
        if let Some(n) = from
            && self.write
        {
            store::put(self.buf, n, src);
        }
    }

    // Adds a piece, which is measured first, and added where there is room for all of it.
    pub fn whole<P: Piece>(&mut self, piece: &P)
        ensures { Printed self.old (P.bytes piece.now) self.new }
    {
        let from = self.place;
        let write = self.write;
        self.write = false;
        piece.add(self);
        self.write = write;
        if self.place.is_some() {
            self.place = from;
            piece.add(self);
        }
    }

    // Adds a blank and a word.
    pub fn word(&mut self, src: &[u8])
        ensures { Printed self.old (spaced (src.now ∷ [])) self.new }
    {
        self.whole(&Word(src));
    }

    // Adds the decimal digits of a number.
    #[tactic(auto, using(print::proofs::Laws::field_first))]
    pub fn decimal(&mut self, n: u64)
        ensures { Printed self.old (decimal_of n) self.new }
    {
        self.add(print::decimal(n).as_slice());
    }

    // Adds a blank and the decimal digits of a number.
    #[tactic(auto, using(print::proofs::Laws::field_first))]
    pub fn decimal_word(&mut self, n: u64)
        ensures { Printed self.old (spaced (decimal_of n ∷ [])) self.new }
    {
        self.word(print::decimal(n).as_slice());
    }

    // Adds a blank and the hex digits of a number.
    pub fn hex_word(&mut self, n: u64)
        ensures { Printed self.old (spaced (hex_of n ∷ [])) self.new }
    {
        self.word(&print::hex(n));
    }
}
