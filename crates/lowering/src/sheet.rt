// The records of a drawing, counted.
ghost use Rattle.lowering.specs.Steps.{Counted};

// The records of a drawing, which are few, and how many points and circles they declare.
#[derive(Clone, Copy)]
pub(crate) struct Sheet<'a> {
    pub records: &'a [u8],
    pub points: usize,
    pub circles: usize,
    ghost counted: { Counted records.now points circles },
}
