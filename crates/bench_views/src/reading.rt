ghost use Rattle.std.specs.Prelude.{◌+◌, ◌≤◌, length, IfOk};
ghost use Rattle.sb_step.specs.Numbers.{numbers_of};

use sb_schema::{
    ViewError, axis2_placement_2d, axis2_placement_3d, cartesian_point, local_placement,
};
use sb_step::StepFile;
use std::alloc::Global;

/// How many points and placements were read.
#[derive(Drop)]
pub struct Seen {
    pub points: usize,
    pub placements: usize,
}

/// Reads each Cartesian point and each placement of the file by its view.
pub fn read(alloc: Global, file: &StepFile<'_>) -> Result<Seen, ViewError>
    ensures { IfOk result (λ seen.
        seen.points + seen.placements ≤ length (numbers_of file.now.file.instances)) }
{
    let mut seen = Seen {
        points: 0,
        placements: 0,
    };
    'numbers: for number in file.numbers() {
        match read_one(alloc, file, *number)? {
            Entity::Point => seen.points += 1,
            Entity::Placement => seen.placements += 1,
            Entity::Other => {}
        }
    }
    Ok(seen)
}

/// What was read.
#[derive(Clone, Copy)]
enum Entity {
    Point,
    Placement,
    Other,
}

fn read_one(alloc: Global, file: &StepFile<'_>, number: u32) -> Result<Entity, ViewError> {
    let Some(keyword) = file.keyword(number) else {
        return Ok(Entity::Other);
    };
    match keyword {
        b"IFCCARTESIANPOINT" => {
            let _point = cartesian_point(alloc, file, number)?;
            Ok(Entity::Point)
        }
        b"IFCLOCALPLACEMENT" => {
            let _placement = local_placement(file, number)?;
            Ok(Entity::Placement)
        }
        b"IFCAXIS2PLACEMENT3D" => {
            let _placement = axis2_placement_3d(file, number)?;
            Ok(Entity::Placement)
        }
        b"IFCAXIS2PLACEMENT2D" => {
            let _placement = axis2_placement_2d(file, number)?;
            Ok(Entity::Placement)
        }
        _ => Ok(Entity::Other),
    }
}
