// The registers over lent memory, at the bounds of all that they take.
use crate::asked::*;
use crate::memory::{enter_in_cells, enter_in_rows};
use rank_grid::grid::RankGrid;
use row_register::row::Row;
use row_register::table::RowRegister;
use rules::register::Register;
use rules::roll::Roll;
use rules::terms::Terms;
use rules::words::{Practice, Trainee};

#[test]
fn openings(rt: HostRuntime) {
    assert!(rt; RankGrid::check(100, 400, 40000).is_ok());
    assert!(rt; refused(RankGrid::check(100, 400, 39999), 9, 40000));
    assert!(rt; refused(RankGrid::check(101, 401, 0), 3, 101));
    assert!(rt; refused(RankGrid::check(100, 401, 0), 3, 401));
    assert!(rt; refused(RankGrid::check(65535, 65535, 0), 3, 65535));
    assert!(rt; RowRegister::check(100, 400, 400).is_ok());
    assert!(rt; refused(RowRegister::check(100, 400, 399), 9, 400));
    assert!(rt; refused(RowRegister::check(0, 65535, 0), 3, 65535));
}

#[test]
fn grid(rt: HostRuntime) {
    let mut cells = [9u8; 27];
    let mut grid = RankGrid::open(13, 2, &mut cells);
    places_at_the_bounds(&rt, &mut grid);
    lists_at_the_bounds(&rt, &mut grid);
}

#[test]
fn rows(rt: HostRuntime) {
    let mut rows = [Row {
        count: 9,
        choices: [9; 12],
    }; 3];
    let mut register = RowRegister::open(13, 2, &mut rows);
    places_at_the_bounds(&rt, &mut register);
    lists_at_the_bounds(&rt, &mut register);
}

#[test]
fn memory_too_short_by_one(rt: HostRuntime) {
    let mut cells = [9u8; 25];
    let mut rows = [Row {
        count: 9,
        choices: [9; 12],
    }; 1];
    assert!(rt;
        refused(
            enter_in_cells(13, 2, &mut cells, Trainee(0), &[Practice(0)]),
            7,
            0,
        )
    );
    assert!(rt;
        refused(
            enter_in_rows(13, 2, &mut rows, Trainee(0), &[Practice(0)]),
            7,
            0,
        )
    );
    assert!(rt; cells[0] == 9 && cells[24] == 9);
    assert!(rt; rows[0].count == 9 && rows[0].choices[11] == 9);
}

#[test]
fn memory_after_an_entry(rt: HostRuntime) {
    let mut cells = [9u8; 7];
    let mut rows = [Row {
        count: 9,
        choices: [9; 12],
    }; 3];
    assert!(rt; enter_in_cells(3, 2, &mut cells, Trainee(1), &[Practice(2), Practice(0)]).is_ok());
    assert!(rt; enter_in_rows(3, 2, &mut rows, Trainee(1), &[Practice(2), Practice(0)]).is_ok());
    assert!(rt; cells[0] == 0 && cells[3] == 2 && cells[4] == 0 && cells[5] == 1 && cells[6] == 9);
    assert!(rt; rows[0].count == 0 && rows[1].count == 2 && rows[2].count == 9);
    assert!(rt; rows[1].choices[0] == 2 && rows[1].choices[1] == 0 && rows[1].choices[2] == 0);
}
