// Formula and table, and what every maker refuses.
use faults::Fault;
use prices::{Formula, Grain, PriceList, Table, Wait};
use std::process::Abort;
use std::test::Fail;
use widths::{Adder, Multiplier, Register};

// A maker by its number, as the refusal tells it.
fn refused<T: Drop>(
    rt: &impl Abort,
    answer: Result<T, Fault>,
    maker: u8,
    row: u8,
) -> Result<(), Fail> {
    let Err(fault) = answer else {
        return Err(Fail::new("taken"));
    };
    assert_eq!(rt; fault, Fault::FaultyList(maker, row));
    Ok(())
}

#[test]
fn formula(rt: HostRuntime) -> Result<(), Fail> {
    let list = Formula::new(3, 64)?;
    assert_eq!(rt;
        [
            list.charge::<Adder>(40),
            list.charge::<Register>(64),
            list.charge::<Multiplier>((33, 21)),
        ],
        [120, 4096, 693]
    );
    assert_eq!(rt;
        [
            list.cell_charge::<Register>(64),
            list.cell_charge::<Multiplier>((1, 24)),
            list.cell_charge::<Multiplier>((41, 1)),
        ],
        [64, 1, 0]
    );
    for (w, steps) in [((19, 17), 5), ((40, 24), 8), ((1, 1), 1), ((3, 4), 0)] {
        assert_eq!(rt; list.latency::<Multiplier>(w), steps);
    }
    assert_eq!(rt;
        [list.latency::<Adder>(1), list.latency::<Register>(8)],
        [2, 0]
    );
    Ok(())
}

#[test]
fn table(rt: HostRuntime) -> Result<(), Fail> {
    let mut steps = [1; 40];
    steps[39] = 255;
    let list = Table::new([65535; 40], [65535; 40], [65535; 64], [7; 40], steps)?;
    assert_eq!(rt;
        [
            list.charge::<Adder>(40),
            list.charge::<Register>(64),
            list.charge::<Adder>(41),
        ],
        [2_621_400, 4_194_240, 0]
    );
    for (w, charge, steps) in [
        ((40, 24), 2_621_400, 255),
        ((39, 24), 2_555_865, 1),
        ((1, 1), 65535, 1),
        ((41, 1), 0, 0),
    ] {
        assert_eq!(rt; list.charge::<Multiplier>(w), charge);
        assert_eq!(rt; list.latency::<Multiplier>(w), steps);
    }
    for (c, charge) in [((40, 1), 65535), ((40, 2), 0), ((41, 1), 0)] {
        assert_eq!(rt; list.cell_charge::<Multiplier>(c), charge);
    }
    assert_eq!(rt;
        [list.latency::<Adder>(40), list.latency::<Register>(1)],
        [7, 0]
    );
    Ok(())
}

#[test]
fn refusals(rt: HostRuntime) -> Result<(), Fail> {
    for (adder, register, row) in [(0, 1, 0), (65, 65, 0), (64, 0, 1), (1, 65, 1)] {
        refused(&rt, Formula::new(adder, register), 0, row)?;
    }
    for size in [0, 3, 16] {
        refused(&rt, Grain::new(Formula::new(1, 1)?, size), 2, 0)?;
    }
    refused(&rt, Wait::new(Formula::new(1, 1)?, 17), 3, 0)
}

#[test]
fn faulty_rows(rt: HostRuntime) -> Result<(), Fail> {
    let rising = [9; 40];
    let mut falling = [9; 40];
    falling[3] = 8;
    falling[20] = 0;
    let mut last = [9; 40];
    last[39] = 0;
    for (adder_steps, multiplier_steps, row) in [
        (falling, falling, 3),
        (last, rising, 39),
        ([0; 40], rising, 0),
        (rising, falling, 43),
        (rising, last, 79),
    ] {
        refused(
            &rt,
            Table::new([0; 40], [0; 40], [0; 64], adder_steps, multiplier_steps),
            1,
            row,
        )?;
    }
    let _lower_than_adders = Table::new([0; 40], [0; 40], [0; 64], rising, [1; 40])?;
    Ok(())
}
