ghost use Rattle.std.specs.Prelude.{true, nat_lt};
ghost use Rattle.sb_blocks.specs.Places.{IsPlace};

use sb_blocks::{Blocks, Place, Test};
use std::process::Abort;
use std::test::Fail;

/// The items below a number pass.
#[derive(Drop)]
struct IsBelow(u32);

impl Test for IsBelow {
    ghost can_test = { λ test x. true };

    ghost passes = { λ test x. nat_lt x test.0 };

    fn is_passed(&self, x: u32) -> bool {
        x < self.0
    }
}

// The place before the items that are not below the number.
fn place_of(blocks: &Blocks, x: u32) -> Place
    ensures { IsPlace blocks.now result }
{
    blocks.first_failing(&IsBelow(x))
}

// Puts the number there.
fn put_in_order(blocks: &mut Blocks, x: u32) -> Result<(), Fail> {
    let place = place_of(blocks, x);
    blocks.insert(place, x)?;
    Ok(())
}

// Takes the number away where it is, and answers whether it was.
fn take_out(blocks: &mut Blocks, x: u32) -> bool {
    let place = place_of(blocks, x);
    match blocks.following(place) {
        Some(place) => blocks.remove(place) == x,
        None => false,
    }
}

// The items at these ranks are these.
fn expect_items(rt: &impl Abort, blocks: &Blocks, rows: &[(usize, u32)]) {
    for (rank, x) in rows {
        let place = place_of(blocks, *x);
        assert_eq!(rt; blocks.rank(place), *rank, "items before {x}");
        assert_eq!(rt; blocks.at(place), Some(*x), "{x}");
    }
}

#[test]
fn numbers_in_any_order_are_put_in_order(rt: HostRuntime) -> Result<(), Fail> {
    let mut blocks = Blocks::new(rt.alloc());
    for x in [5, 1, 4, 2, 3] {
        put_in_order(&mut blocks, x)?;
    }
    assert_eq!(rt; blocks.len(), 5);
    let first = blocks.block(0).ok_or("no block")?;
    assert_eq!(rt; first, [1, 2, 3, 4, 5].as_slice());
    assert_eq!(rt; blocks.before(Place { block: 0, at: 0 }), None);
    assert_eq!(rt; blocks.at(Place { block: 7, at: 0 }), None);
    Ok(())
}

#[test]
fn full_blocks_are_halved(rt: HostRuntime) -> Result<(), Fail> {
    let mut blocks = Blocks::new(rt.alloc());
    for k in 0..3000u32 {
        put_in_order(&mut blocks, k * 1009 % 3000)?;
    }
    assert_eq!(rt; blocks.len(), 3000);
    assert!(rt; blocks.count() >= 3 && blocks.count() <= 6);
    expect_items(&rt, &blocks, &[(0, 0), (1, 1), (1500, 1500), (2999, 2999)]);
    Ok(())
}

#[test]
fn items_are_taken_out_and_empty_blocks_dropped(rt: HostRuntime) -> Result<(), Fail> {
    let mut blocks = Blocks::new(rt.alloc());
    for x in 0..2000 {
        put_in_order(&mut blocks, x)?;
    }
    for x in 0..1990 {
        assert!(rt; take_out(&mut blocks, x), "{x}");
    }
    assert!(rt; !take_out(&mut blocks, 3000));
    assert_eq!(rt; blocks.count(), 1);
    expect_items(&rt, &blocks, &[(0, 1990), (9, 1999)]);
    Ok(())
}

#[test]
fn an_item_is_replaced(rt: HostRuntime) -> Result<(), Fail> {
    let mut blocks = Blocks::new(rt.alloc());
    put_in_order(&mut blocks, 4)?;
    put_in_order(&mut blocks, 6)?;
    let place = place_of(&blocks, 6);
    if let Some(place) = blocks.following(place) {
        blocks.replace(place, 5);
        assert_eq!(rt; blocks.before(place), Some(4));
    }
    expect_items(&rt, &blocks, &[(0, 4), (1, 5)]);
    Ok(())
}
