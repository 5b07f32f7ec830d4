//! The pieces of an archive: whether it is cut the right way.

ghost use Rattle.std.specs.Prelude.{◌≡◌, ◌↔◌, length, IsTrue};
ghost use Rattle.tables_world.specs.Pieces.{IsCut};
ghost use Rattle.tables_load_objects.specs.Cut as cut;
ghost use Rattle.tables_load_objects.specs.Cut.{continues, part_of, parts_of};

use streams::PIECE_SIZE;
use tables_rows::pieces::Piece;

fn is_number(value: i64, number: u64) -> bool
    ensures { result ≡ cut.is_number value number }
{
    match u64::try_from(value) {
        Ok(value) => value == number,
        Err(_) => false,
    }
}

/// Whether a part of `size` bytes may be followed by this piece, with this number.
fn is_next(size: usize, number: u64, piece: &Piece) -> bool
    ensures { result ≡ cut.is_next size number (part_of piece.now) }
{
    size == PIECE_SIZE && is_number(piece.number, number) && !piece.bytes.is_empty()
}

fn go_on(row: &[u8], pieces: &[Piece]) -> bool
    ensures { result ≡ continues (length row.now) 1 (parts_of pieces.now) }
{
    let mut size = row.len();
    let mut number: u64 = 1;
    'pieces: for piece in pieces {
        if !is_next(size, number, piece) {
            return false;
        }
        size = piece.bytes.len();
        number += 1;
    }
    size <= PIECE_SIZE
}

/// Whether an object's row and its pieces are an archive that is cut the right way.
pub(crate) fn is_cut(row: &[u8], pieces: &[Piece]) -> bool
    ensures { IsTrue result ↔ IsCut row.now (parts_of pieces.now) }
{
    go_on(row, pieces)
}
