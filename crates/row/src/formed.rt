// Whether rows are well formed.
ghost use Rattle.std.specs.Prelude.{◌≡◌, ◌/◌, ◌≤◌, ◌<◌, ◌==◌, length, drop};
ghost use Rattle.std.specs.List.{list_all};
ghost use Rattle.refusal.specs.First.{all_below};
ghost use Rattle.layout.specs.Slots.{size_of};
ghost use Rattle.layout.specs.declared.ShapeKind.TheVariants.{Arc};
ghost use Rattle.kinds.specs.Kinds.{kind_at, label_places};
ghost use Rattle.row.specs.Row.{row_bytes, most_ids, row_no};
ghost use Rattle.row.specs.Formed.{ids_at, ids_of, clear_at, held_test, row_test, rows_test};

use super::{MARK, ROW, Row, decode_row};
use kinds::{FIRST_RULE, LAST_RULE, NEEDS, NONE, cell_of};
use layout::{VARS_PER_ARC, VARS_PER_CIRCLE, VARS_PER_POINT};

// How many ids label place q of a kind comes to, by what it needs.
fn ids_at(kind: u8, q: usize) -> usize
    requires { q < label_places }
    ensures { (result ≡ ids_at kind q) × (result ≤ size_of Arc) }
{
    let ids = [0, VARS_PER_POINT, VARS_PER_CIRCLE, VARS_PER_ARC, 1, 1];
    let need = cell_of(kind, NEEDS + q) as usize;
    ids.get(need).copied().unwrap_or(0)
}

// How many ids the row of a kind has.
fn ids_of(kind: u8) -> usize
    ensures { result ≡ ids_of kind }
{
    ids_at(kind, 0) + ids_at(kind, 1) + ids_at(kind, 2) + ids_at(kind, 3)
}

// Whether no id stands behind those that a row has.
fn clear(r: Row) -> bool
    ensures { result ≡ list_all (λ x. x == 0) (drop r.count r.ids) }
{
    r.ids.iter().skip(r.count as usize).all(|id| *id == 0)
}

// Whether the fields of a row are as its kind allows.
fn fields_formed(r: Row) -> bool
    ensures { result ≡ held_test (kind_at r.kind) r }
{
    let kind = r.kind;
    let ids = ids_of(kind);
    let thirds = cell_of(kind, kinds::THIRDS);
    let sort = cell_of(kind, kinds::SORT);
    (FIRST_RULE <= kind)
        & ((kind <= LAST_RULE)
            & ((r.count as usize == ids)
                & (((r.third <= thirds) & (!(0 < thirds) | (0 < r.third)))
                    & (clear(r) & (!(sort == NONE) | (r.bits == 0))))))
}

// Whether row i is well formed.
fn row_formed(rows: &[u8], i: usize) -> bool
    requires { i < length rows.now / row_bytes }
    ensures { result ≡ row_test (row_no rows.now i) }
{
    (rows[i * ROW] == MARK) & fields_formed(decode_row(rows, i))
}

// Whether bytes are whole rows, each well formed.
pub fn rows_formed(rows: &[u8]) -> bool
    ensures { result ≡ rows_test rows.now }
{
    if rows.len() % ROW != 0 {
        return false;
    }
    for i in 0..rows.len() / ROW {
        if !row_formed(rows, i) {
            return false;
        }
    }
    true
}
