// Grain and wait, over a list and over one another.
use prices::{Formula, Grain, PriceList, Table, Wait, adjustments_sound};
use std::test::Fail;
use widths::{Adder, Multiplier, Register};

#[test]
fn grain(rt: HostRuntime) -> Result<(), Fail> {
    let list = Grain::new(Formula::new(3, 5)?, 4)?;
    for (w, charge) in [((33, 21), 864), ((3, 4), 0)] {
        assert_eq!(rt; list.charge::<Multiplier>(w), charge);
    }
    for (c, charge) in [((5, 9), 16), ((5, 10), 0), ((41, 1), 0)] {
        assert_eq!(rt; list.cell_charge::<Multiplier>(c), charge);
    }
    assert_eq!(rt;
        [
            list.charge::<Register>(61),
            list.cell_charge::<Adder>(37),
            list.cell_charge::<Adder>(40),
        ],
        [320, 12, 0]
    );
    assert_eq!(rt; list.latency::<Multiplier>((33, 21)), 7);
    Ok(())
}

#[test]
fn wait(rt: HostRuntime) -> Result<(), Fail> {
    let list = Wait::new(Formula::new(3, 5)?, 3)?;
    adjustments_sound(&list);
    assert_eq!(rt;
        [
            list.charge::<Multiplier>((33, 21)),
            list.cell_charge::<Adder>(40),
        ],
        [693, 3]
    );
    assert_eq!(rt;
        [
            list.latency::<Multiplier>((33, 21)),
            list.latency::<Multiplier>((3, 4)),
        ],
        [10, 0]
    );
    let long = Wait::new(list, 5)?;
    assert_eq!(rt;
        [long.latency::<Adder>(9), long.latency::<Register>(9)],
        [10, 0]
    );
    Ok(())
}

#[test]
fn stacked(rt: HostRuntime) -> Result<(), Fail> {
    let both = Grain::new(Grain::new(Formula::new(3, 5)?, 4)?, 2)?;
    assert_eq!(rt;
        [
            both.charge::<Adder>(5),
            both.cell_charge::<Adder>(5),
            both.cell_charge::<Adder>(7),
        ],
        [24, 12, 0]
    );
    let rows = Table::new([1; 40], [1; 40], [1; 64], [250; 40], [250; 40])?;
    let held = Grain::new(Wait::new(Wait::new(rows, 3)?, 16)?, 8)?;
    assert_eq!(rt;
        [held.latency::<Adder>(1), held.latency::<Multiplier>((9, 2))],
        [255, 255]
    );
    assert_eq!(rt; held.charge::<Multiplier>((9, 2)), 16);
    Ok(())
}
