// The boxes of a row of rooms.
ghost use Rattle.std.specs.Prelude.{◌≡◌, ◌≤◌, ◌<◌, ◌+◌, ◌++◌, map, IfOk, OnOk};
ghost use Rattle.std.specs.List.{range_with_len};
ghost use Rattle.sb_demo.specs.Numbering.{most_rooms};
ghost use Rattle.sb_demo.specs.Blocks.{blocks, middle, row_length, room_middle};
ghost use Rattle.sb_demo.specs.Blocks.{lower_slab, upper_slab, near_wall, far_wall};
ghost use Rattle.sb_demo.specs.Blocks.{cross_wall, room, opening};

use sb_list::Listed;
use std::alloc::{AllocError, Global};

/// What a block is.
#[derive(Clone, Copy)]
pub enum Class {
    Slab,
    Wall,
    Space,
    Opening,
}

/// A box with its product, in millimetres (mm).
#[derive(Clone, Copy)]
pub struct Block {
    /// Its place among the blocks, counted from 0.
    pub place: u32,
    pub class: Class,
    /// The centre in plan.
    pub x: i64,
    pub y: i64,
    pub size_x: i64,
    pub size_y: i64,
    pub base: i64,
    pub height: i64,
}

/// The blocks of a model, in order of their places.
pub type Blocks = Listed<Block>;

/// All blocks of a row of `n` rooms.
#[tactic(auto, unfolding(crate::specs::Blocks::blocks))]
pub fn blocks(alloc: Global, n: u32) -> Result<Blocks, AllocError>
    requires { n ≤ most_rooms }
    ensures { IfOk result (λ list. list ≡ blocks n) }
{
    let mut blocks = Blocks::new(alloc);
    blocks.push(lower_slab(n))?;
    blocks.push(upper_slab(n))?;
    blocks.push(near_wall(n))?;
    blocks.push(far_wall(n))?;
    push_cross_walls(&mut blocks, n)?;
    push_rooms(&mut blocks, n)?;
    push_openings(&mut blocks, n)?;
    Ok(blocks)
}

fn push_cross_walls(blocks: &mut Blocks, n: u32) -> Result<(), AllocError>
    requires { n ≤ most_rooms }
    ensures { OnOk result (blocks.new ≡ blocks.old ++ map cross_wall (range_with_len 0 (n + 1))) }
{
    for j in 0..n + 1 {
        blocks.push(cross_wall(j))?;
    }
    Ok(())
}

fn push_rooms(blocks: &mut Blocks, n: u32) -> Result<(), AllocError>
    requires { n ≤ most_rooms }
    ensures { OnOk result (blocks.new ≡ blocks.old ++ map (room n) (range_with_len 0 n)) }
{
    for i in 0..n {
        blocks.push(room(n, i))?;
    }
    Ok(())
}

fn push_openings(blocks: &mut Blocks, n: u32) -> Result<(), AllocError>
    requires { n ≤ most_rooms }
    ensures { OnOk result (blocks.new ≡ blocks.old ++ map (opening n) (range_with_len 0 n)) }
{
    for i in 0..n {
        blocks.push(opening(n, i))?;
    }
    Ok(())
}

/// The middle of the whole row.
fn middle(n: u32) -> i64
    requires { n ≤ most_rooms }
    ensures { result ≡ middle n }
{
    i64::from(2_100 * n) - 100
}

/// The length of the whole row, with the walls at its ends.
fn row_length(n: u32) -> i64
    requires { n ≤ most_rooms }
    ensures { result ≡ row_length n }
{
    i64::from(4_200 * n) + 200
}

/// The middle of room `i`.
fn room_middle(i: u32) -> i64
    requires { i ≤ most_rooms }
    ensures { result ≡ room_middle i }
{
    i64::from(4_200 * i) + 2_000
}

fn lower_slab(n: u32) -> Block
    requires { n ≤ most_rooms }
    ensures { result ≡ lower_slab n }
{
    Block {
        place: 0,
        class: Class::Slab,
        x: middle(n),
        y: 1_500,
        size_x: row_length(n),
        size_y: 3_400,
        base: -200,
        height: 200,
    }
}

fn upper_slab(n: u32) -> Block
    requires { n ≤ most_rooms }
    ensures { result ≡ upper_slab n }
{
    Block {
        place: 1,
        class: Class::Slab,
        x: middle(n),
        y: 1_500,
        size_x: row_length(n),
        size_y: 3_400,
        base: 2_500,
        height: 200,
    }
}

fn near_wall(n: u32) -> Block
    requires { n ≤ most_rooms }
    ensures { result ≡ near_wall n }
{
    Block {
        place: 2,
        class: Class::Wall,
        x: middle(n),
        y: -100,
        size_x: row_length(n),
        size_y: 200,
        base: 0,
        height: 2_500,
    }
}

fn far_wall(n: u32) -> Block
    requires { n ≤ most_rooms }
    ensures { result ≡ far_wall n }
{
    Block {
        place: 3,
        class: Class::Wall,
        x: middle(n),
        y: 3_100,
        size_x: row_length(n),
        size_y: 200,
        base: 0,
        height: 2_500,
    }
}

fn cross_wall(j: u32) -> Block
    requires { j ≤ most_rooms }
    ensures { result ≡ cross_wall j }
{
    Block {
        place: 4 + j,
        class: Class::Wall,
        x: i64::from(4_200 * j) - 100,
        y: 1_500,
        size_x: 200,
        size_y: 3_000,
        base: 0,
        height: 2_500,
    }
}

fn room(n: u32, i: u32) -> Block
    requires rooms { n ≤ most_rooms }
    requires within { i < n }
    ensures { result ≡ room n i }
{
    Block {
        place: 5 + n + i,
        class: Class::Space,
        x: room_middle(i),
        y: 1_500,
        size_x: 4_000,
        size_y: 3_000,
        base: 0,
        height: 2_500,
    }
}

fn opening(n: u32, i: u32) -> Block
    requires rooms { n ≤ most_rooms }
    requires within { i < n }
    ensures { result ≡ opening n i }
{
    Block {
        place: opening_place(n, i),
        class: Class::Opening,
        x: room_middle(i),
        y: -100,
        size_x: 2_000,
        size_y: 400,
        base: 900,
        height: 1_200,
    }
}

/// The place of the opening of room `i`.
pub fn opening_place(n: u32, i: u32) -> u32
    requires rooms { n ≤ most_rooms }
    requires within { i < n }
    ensures { result ≡ (opening n i).place }
{
    5 + 2 * n + i
}
