//! Plans of many places take few growths of memory, in whatever order they are put, which
//! `tests/refuse_each_growth.py` counts.
use s360_store::{Place, Plan};
use std::alloc::{AllocError, Global};
use std::test::Fail;

/// So many places are put.
const COUNT: u32 = 65_535;

/// In which order places are put.
enum Order {
    /// Each behind those put before it.
    Rising,
    /// Each behind those put before it, but for the last, which is the first of all.
    RisingButForTheLast,
    /// Each before those put before it.
    Falling,
    /// From both ends in turns.
    Mixed,
}

impl Order {
    /// The address of the place that is put after so many others.
    fn address(&self, after: u32) -> u32 {
        match self {
            Order::Rising => after % COUNT + 1,
            Order::RisingButForTheLast => (after % COUNT + 1) % COUNT,
            Order::Falling => COUNT - after % COUNT,
            Order::Mixed if after % 2 == 0 => after % COUNT / 2,
            Order::Mixed => COUNT - after % COUNT / 2,
        }
    }
}

/// Puts a value at a place.
fn put(plan: &mut Plan, place: Place) -> Result<(), AllocError> {
    if plan.len() < 1_000_000 {
        plan.put(place, 1)?;
    }
    Ok(())
}

/// How many places a plan has that are put in an order.
fn places_put(alloc: Global, order: &Order) -> Result<u32, AllocError> {
    let mut plan = Plan::new(alloc);
    for after in 0..COUNT {
        put(&mut plan, Place::Byte(order.address(after)))?;
    }
    Ok(plan.len())
}

#[test]
fn rising_puts(rt: HostRuntime) -> Result<(), Fail> {
    let count = places_put(rt.alloc(), &Order::Rising)?;
    assert_eq!(rt; count, COUNT);
    Ok(())
}

#[test]
fn rising_puts_but_for_the_last(rt: HostRuntime) -> Result<(), Fail> {
    let count = places_put(rt.alloc(), &Order::RisingButForTheLast)?;
    assert_eq!(rt; count, COUNT);
    Ok(())
}

#[test]
fn falling_puts(rt: HostRuntime) -> Result<(), Fail> {
    let count = places_put(rt.alloc(), &Order::Falling)?;
    assert_eq!(rt; count, COUNT);
    Ok(())
}

#[test]
fn mixed_puts(rt: HostRuntime) -> Result<(), Fail> {
    let count = places_put(rt.alloc(), &Order::Mixed)?;
    assert_eq!(rt; count, COUNT);
    Ok(())
}
