//! Examples.
use crate::Table;
use crate::common::lcm;
use crate::level::Level;
use sheet::Sheet;
use std::test::Fail;

#[test]
fn multiples(rt: HostRuntime) {
    assert_eq!(rt; lcm(4, 6), 12);
    assert_eq!(rt; lcm(7, 30000), 210000);
}

#[test]
fn allowances_round_up(rt: HostRuntime) {
    assert_eq!(rt; Level::new(30).allowance(1), 4);
    assert_eq!(rt; Level::new(50).allowance(3), 6);
}

#[test]
fn blank_sheet(rt: HostRuntime) -> Result<(), Fail> {
    let mut table = Table::blank();
    table.admit(&Sheet::blank())?;
    assert_eq!(rt; table.base(), 100);
    assert_eq!(rt; table.works().cycle(), 1);
    assert_eq!(rt; table.names().len(), 0);
    Ok(())
}
