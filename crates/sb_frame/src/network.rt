//! The plan edges of a model and their crossings.

ghost use Rattle.std.specs.Prelude.{◌≡◌, ◌↔◌, ◌≤◌, ◌<◌, ℕ, Some, None, length, slice_get, map};
ghost use Rattle.std.specs.Prelude.{IfOk, IfSome, IfNone, IsTrue};
ghost use Rattle.std.specs.Option.{option_map};
ghost use Rattle.std.specs.Result.{IsErrOf};
ghost use Rattle.std.specs.List.{list_all};
ghost use Rattle.sb_fraction.specs.Spots.{spot_of};
ghost use Rattle.sb_fraction.specs.Bounds.{is_crossing_size};
ghost use Rattle.sb_model.specs.PlanEdges.{plan_edges as edges_of_model};
ghost use Rattle.sb_frame.specs.Network.{network, IsNetwork, HasMoreCrossings, product_beyond};
ghost use Rattle.sb_frame.specs.Network.{most_edges, most_crossings, plan_edge_of, plan_edges_of};
ghost use Rattle.sb_frame.specs.Network.{IsMade, spots_of};
ghost use Rattle.sb_frame.specs.Through.{places_through};

use crate::crossing::Crossing;
use crate::edge::PlanEdge;
use crate::finding::{FoundCrossings, crossings};
use crate::reading::{first_beyond, plan_edges};
use crate::slab::Indices;
use crate::through::through_each;
use sb_fraction::HPoint;
use sb_list::Listed;
use sb_model::Model;
use std::alloc::{AllocError, Global};
use std::marker;
use thiserror::Error;

/// Points in plan.
pub type HPoints = Listed<HPoint>;

/// The plan edges of a model, and the points where two of them cross.
#[derive(Drop)]
pub struct PlanEdges {
    pub(crate) edges: Vec<PlanEdge>,
    pub(crate) crossings: HPoints,
    /// For each crossing the places of the edges that have it strictly inside.
    pub(crate) through: Listed<Indices>,
    ghost passing: { through ≡ map (places_through (plan_edges_of edges.items)) (spots_of crossings) },
}

impl marker::Model for PlanEdges {
    ghost use Rattle.std.specs.Prelude.{IsTrue};
    ghost use Rattle.std.specs.List.{list_all};
    ghost use Rattle.sb_fraction.specs.Bounds.{is_crossing_size};
    ghost use Rattle.sb_frame.specs.Network.{Network, network, plan_edges_of, spots_of};

    ghost Value = { Network };

    ghost view = { λ n. network (plan_edges_of n.edges.items) (spots_of n.crossings) };

    ghost invariant = { λ n. IsTrue (list_all is_crossing_size (spots_of n.crossings)) };
}

/// Why a model has too much in plan.
#[derive(Debug, Drop, Error)]
pub enum EdgesError {
    /// There are more than 2,048 plan edges: those of the product with this number pass the limit.
    #[error("the edges of #{0} pass the limit")]
    Edges(u32),
    /// There are more than 1,024 crossings.
    #[error("too many crossings")]
    Crossings,
    /// There is no memory.
    #[error("no memory")]
    NoMemory,
}

impl PlanEdges {
    /// The plan edges of a model, by product number, then loop, then edge, and their crossings, each
    /// point once.
    ///
    /// - `Err(Edges(n))`: exactly where there are more than 2,048 plan edges; n is the product of the
    ///   edge that has 2,048 before it. Tried first, and from the numbers of points alone.
    /// - `Err(Crossings)`: exactly where there are at most 2,048 edges and more than 1,024 crossings.
    /// - `Err(NoMemory)`: at any time.
    pub fn new(alloc: Global, model: &Model) -> Result<PlanEdges, EdgesError>
        ensures network { IfOk result (IsNetwork model.now) }
        ensures edges { (n : ℕ) → IsMade result → IsErrOf result (EdgesError.Edges n)
            ↔ (product_beyond most_edges (edges_of_model model.now) ≡ Some n) }
        ensures crossings { IsMade result → IsErrOf result EdgesError.Crossings
            ↔ ((length (edges_of_model model.now) ≤ most_edges) × HasMoreCrossings model.now most_crossings) }
    {
        if let Some(product) = first_beyond(model) {
            return Err(EdgesError::Edges(product));
        }
        match network_of(alloc, model) {
            Ok(Some(network)) => Ok(network),
            Ok(None) => Err(EdgesError::Crossings),
            Err(_) => Err(EdgesError::NoMemory),
        }
    }

    /// How many plan edges there are.
    pub fn len(&self) -> usize
        ensures { result ≡ length self.now.edges }
    {
        self.edges.len()
    }

    /// Plan edge `i`, counted from 0.
    pub fn edge(&self, i: usize) -> PlanEdge
        requires { i < length self.now.edges }
        ensures { slice_get self.now.edges i ≡ Some (plan_edge_of result) }
    {
        self.edges[i]
    }

    /// The crossings, each point once.
    pub fn crossings(&self) -> &HPoints
        ensures points { spots_of result.now ≡ self.now.crossings }
        ensures size { IsTrue (list_all is_crossing_size self.now.crossings) }
    {
        &self.crossings
    }
}

/// The plan edges of a model and their crossings; `None` where these are too many.
fn network_of(alloc: Global, model: &Model) -> Result<Option<PlanEdges>, AllocError>
    ensures some { IfOk result (λ o. IfSome o (IsNetwork model.now)) }
    ensures few { IfOk result (λ o. IfSome o (λ n. length n.crossings ≤ most_crossings)) }
    ensures none { IfOk result (λ o. IfNone o (HasMoreCrossings model.now most_crossings)) }
{
    let edges = plan_edges(alloc, model)?;
    match crossings(alloc, edges.as_slice())? {
        FoundCrossings::Within(list) => {
            let crossings = points(alloc, list.as_slice())?;
            let through = through_each(alloc, edges.as_slice(), list.as_slice())?;
            Ok(Some(PlanEdges {
                edges,
                crossings,
                through,
            }))
        }
        FoundCrossings::Beyond => Ok(None),
    }
}

/// The points of crossings.
fn points(alloc: Global, list: &[Crossing]) -> Result<HPoints, AllocError>
    ensures { IfOk result (λ points. points ≡ map (λ c. c.point) list.now) }
{
    let mut points = Listed::new(alloc);
    'crossings: for crossing in list {
        points.push(crossing.point)?;
    }
    Ok(points)
}
