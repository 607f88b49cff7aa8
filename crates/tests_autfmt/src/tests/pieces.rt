//! Tests of the function `append`, which writes a text into a buffer.
use autfmt::append;
use std::test::Fail;
use test_support::check;

/// An example: the index at which a text is written into the buffer, the text, and the contents of the buffer
/// afterwards.
const PIECES: [(usize, &[u8], &[u8]); 5] = [
    (0, b"", b"........"),
    (0, b"des (", b"des (..."),
    (3, b", ", b"..., ..."),
    (6, b")\n", b"......)\n"),
    (8, b"", b"........"),
];

/// Returns true if `append` returns the index after the last byte of the text, and the contents of the buffer are
/// `wanted` afterwards.
fn is_put(place: usize, piece: &[u8], wanted: &[u8]) -> bool {
    let mut buffer = *b"........";
    if place > 8 || piece.len() > 8 - place {
        return false;
    }
    let end = append(&mut buffer, place, piece);
    end == place + piece.len() && buffer.as_slice() == wanted
}

#[test]
fn a_piece_is_put_in_its_place(_rt: HostRuntime) -> Result<(), Fail> {
    for (place, piece, wanted) in &PIECES {
        check("a piece", is_put(*place, piece, wanted))?;
    }
    Ok(())
}
