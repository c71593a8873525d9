// A kind of units that has no name: by its number it has no widths and no cells, so every list answers 0.
ghost use Rattle.widths.specs.Kinds.{sides_of};

use prices::{Formula, Grain, PriceList, Table, Wait};
use std::test::Fail;
use widths::*;

struct Shifter;

impl Kind for Shifter {
    type Width = u8;

    const CELLS: usize = 0;

    ghost code = { 3 };

    ghost shape = { λ w. sides_of w 0 };

    fn number() -> u8 {
        3
    }

    fn sides(w: u8) -> Sides {
        Sides { p: w, q: 0 }
    }

    fn has_first_side(_p: u8) -> bool {
        false
    }

    fn is_width(_w: u8) -> bool {
        false
    }

    fn is_cell(_c: u8) -> bool {
        false
    }

    fn width(_s: Sides) -> Option<u8> {
        None
    }

    fn cell(_s: Sides) -> Option<u8> {
        None
    }

    fn cell_count() -> usize {
        Self::CELLS
    }
}

#[test]
fn unnamed_kind(rt: HostRuntime) -> Result<(), Fail> {
    let formula = Grain::new(Formula::new(3, 5)?, 4)?;
    let table = Wait::new(Table::new([1; 40], [1; 40], [1; 64], [7; 40], [7; 40])?, 3)?;
    for w in [0, 1, 40, 64, 255] {
        assert_eq!(rt;
            (formula.charge::<Shifter>(w), table.charge::<Shifter>(w)),
            (0, 0)
        );
        assert_eq!(rt;
            (
                formula.cell_charge::<Shifter>(w),
                table.cell_charge::<Shifter>(w)
            ),
            (0, 0)
        );
        assert_eq!(rt;
            (formula.latency::<Shifter>(w), table.latency::<Shifter>(w)),
            (0, 0)
        );
    }
    assert_eq!(rt; Shifter::cell_count(), 0);
    Ok(())
}

// With all of `widths` brought in, a kind's sides and its number of cells are those of `Kind`, and the number serves as a constant.
const ADDER_CELLS: usize = Adder::CELLS;

#[test]
fn named_kinds(rt: HostRuntime) {
    assert_eq!(rt;
        (
            ADDER_CELLS,
            Multiplier::CELLS,
            Register::CELLS,
            Shifter::CELLS
        ),
        (40, 960, 64, 0)
    );
    assert_eq!(rt; [7u8; <Register as Kind>::CELLS].len(), 64);
    assert_eq!(rt; Adder::sides(7), Sides { p: 7, q: 0 });
    assert_eq!(rt; Multiplier::sides((7, 3)), Sides { p: 7, q: 3 });
    assert_eq!(rt; Shifter::sides(7), Register::sides(7));
}
