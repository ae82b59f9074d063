use std::test::Fail;
use vh_cut::{Piece, pieces};

const fn piece(start: u32, length: u32) -> Piece {
    Piece { start, length }
}

#[test]
fn pieces_end_at_sizes_stops_and_the_last_sample(rt: HostRuntime) -> Result<(), Fail> {
    let rows = [
        (
            pieces(20, &[3, 8192], &[0, 5, 5, 6, 40]).collect::<Vec<Piece>>(rt.alloc())?,
            [piece(0, 3), piece(3, 2), piece(5, 1), piece(6, 14)],
        ),
        (
            pieces(200, &[64], &[100]).collect(rt.alloc())?,
            [piece(0, 64), piece(64, 36), piece(100, 64), piece(164, 36)],
        ),
        (
            pieces(200, &[37, 64], &[]).collect(rt.alloc())?,
            [piece(0, 37), piece(37, 64), piece(101, 37), piece(138, 62)],
        ),
    ];
    for (cut, wanted) in rows {
        assert_eq!(rt; cut.as_slice(), &wanted[..]);
    }
    assert_eq!(rt; pieces(0, &[64], &[0, 1]).count(), 0);
    Ok(())
}
