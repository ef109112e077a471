//! A cut of 100,000 columns.

use html_render_parts_widths::{Meter, check_cut, column_widths_metered, cut_fits};
use std::test::Fail;

#[test]
fn a_hundred_thousand_columns_are_cut_at_once(rt: HostRuntime) -> Result<(), Fail> {
    let columns = 0..100_000usize;
    let minimums: Vec<usize> = columns.clone()?.map(|i| i % 7).collect(rt.alloc())?;
    let shares: Vec<usize> = columns
        .map(|i| i % 7 + i * 7919 % 1000)
        .collect(rt.alloc())?;
    let mut meter = Meter::default();
    assert!(rt; cut_fits(&minimums, &shares, 20_000_001));
    let cut = column_widths_metered(rt.alloc(), &minimums, &shares, 20_000_001, &mut meter)?;
    assert!(rt; check_cut(&minimums, &shares, 20_000_001, &cut));
    assert!(rt; cut.lowered > 0);
    assert!(rt; meter.probes <= 10);
    Ok(())
}
