// Which numbers the instances have.
ghost use Rattle.std.specs.Prelude.{◌≡◌};
ghost use Rattle.sb_demo.specs.Numbering.{block_number, product_number};

/// The most rooms that a generated model has.
pub const MOST_ROOMS: u32 = 40;

/// The number of the first instance of block 0.
const FIRST_BLOCK: u64 = 101;

/// How far apart the first numbers of neighbouring blocks are.
const BLOCK_STEP: u64 = 10;

/// The number of the first window.
pub const FIRST_WINDOW: u64 = 10_001;

/// The number of the first relation by which an opening voids the wall.
pub const FIRST_VOID: u64 = 20_001;

/// The number of the first relation by which a window fills an opening.
pub const FIRST_FILLING: u64 = 30_001;

/// The number of the first relation to a material.
pub const FIRST_ASSOCIATION: u64 = 40_001;

/// How many digits a GlobalId has.
pub const GLOBAL_ID_WIDTH: usize = 22;

/// The number of the first instance of the block at this place, counted from 0.
pub fn block_number(place: u32) -> u64
    ensures { result ≡ block_number place }
{
    FIRST_BLOCK + BLOCK_STEP * u64::from(place)
}

/// The number of its product.
pub fn product_number(place: u32) -> u64
    ensures { result ≡ product_number place }
{
    block_number(place) + 8
}
