// Kinds of units and the lines of faults.
use faults::Fault;
use std::process::Abort;
use std::test::Fail;
use widths::{Adder, Kind, Multiplier, Register, covers, lies_under};

// Whether each of these is a width of the kind, or a cell.
fn told<K: Kind>(rt: &impl Abort, widths: &[(K::Width, bool)], cells: &[(K::Width, bool)]) {
    for (width, there) in widths {
        assert_eq!(rt; K::is_width(*width), *there);
    }
    for (cell, there) in cells {
        assert_eq!(rt; K::is_cell(*cell), *there);
    }
}

#[test]
fn widths_of_kinds(rt: HostRuntime) {
    assert_eq!(rt; Adder::cell_count(), 40);
    assert_eq!(rt; Multiplier::cell_count(), 960);
    assert_eq!(rt; Register::cell_count(), 64);
    let sides = [(0, false), (1, true), (40, true), (41, false)];
    told::<Adder>(&rt, &sides, &sides);
    told::<Multiplier>(
        &rt,
        &[
            ((1, 1), true),
            ((40, 24), true),
            ((3, 4), false),
            ((41, 1), false),
            ((40, 25), false),
            ((5, 0), false),
        ],
        &[
            ((1, 24), true),
            ((40, 24), true),
            ((41, 1), false),
            ((40, 25), false),
            ((0, 1), false),
            ((1, 0), false),
        ],
    );
    told::<Register>(
        &rt,
        &[(0, false), (64, true), (65, false)],
        &[(1, true), (64, true), (65, false)],
    );
}

#[test]
fn covering(rt: HostRuntime) {
    assert!(rt; covers::<Adder>(8, 8) && covers::<Register>(9, 8) && !covers::<Adder>(7, 8));
    assert!(rt; covers::<Multiplier>((12, 8), (12, 7)));
    assert!(rt; !covers::<Multiplier>((12, 8), (11, 9)) && !covers::<Multiplier>((12, 8), (13, 1)));
    assert!(rt;
        lies_under::<Multiplier>((3, 8), (12, 8)) && !lies_under::<Multiplier>((3, 9), (12, 8))
    );
}

#[test]
fn fault_lines(rt: HostRuntime) -> Result<(), Fail> {
    for (fault, line) in [
        (Fault::CutShort(14), "refused 2 14"),
        (Fault::FaultyList(2, 0), "refused 7 2 0"),
        (Fault::OutOfMemory, "refused 0 0"),
    ] {
        assert_eq!(rt; format!(in rt.alloc(); "{fault}")?.as_str(), line);
    }
    Ok(())
}
