// The kinds of records.
ghost use Rattle.std.specs.Prelude.{◌≡◌, ◌<◌};
ghost use Rattle.record.specs.Decode.{count_of as records_in, decode_at};

use record::SIZE;

// The kind of a record that is there.
pub(crate) fn kind_of(records: &[u8], i: usize) -> u8
    requires { i < records_in records.now }
    ensures { result ≡ (decode_at records.now i).kind }
{
    records[i * SIZE + 1]
}

// The kind of record i, and 0 past the last.
pub fn kind_at(records: &[u8], i: usize) -> u8
    ensures { result ≡ (decode_at records.now i).kind }
{
    if records.len() / SIZE <= i {
        return 0;
    }
    kind_of(records, i)
}
