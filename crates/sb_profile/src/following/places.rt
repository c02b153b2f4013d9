// The places at which instances are wanted.

/// What an instance is wanted as, where another leads to it.
#[derive(Clone, Copy)]
pub enum Place {
    /// A placement of a product or the one to which it is relative: IFCLOCALPLACEMENT.
    Placement,
    /// A definition shape of a product: IFCPRODUCTDEFINITIONSHAPE.
    Shape,
    /// A representation, whatever its identifier: IFCSHAPEREPRESENTATION. Nothing follows from it.
    Representation,
    /// The first representation `Body` of a shape: its items follow.
    Body,
    /// An item of a body: IFCEXTRUDEDAREASOLID.
    Solid,
    /// The swept area of a solid: one of three profiles.
    Profile,
    /// A curve of a profile: IFCPOLYLINE or IFCINDEXEDPOLYCURVE.
    Curve,
    /// The points of an indexed curve: IFCCARTESIANPOINTLIST2D.
    PointList,
    /// A position in space: IFCAXIS2PLACEMENT3D.
    Position3d,
    /// A position in a plane: IFCAXIS2PLACEMENT2D.
    Position2d,
    /// A point: IFCCARTESIANPOINT.
    Point,
    /// A direction: IFCDIRECTION.
    Direction,
    /// What an element is made of: IFCMATERIAL, IFCMATERIALLAYERSET or IFCMATERIALLAYERSETUSAGE.
    Material,
    /// The layers of a usage: IFCMATERIALLAYERSET.
    LayerSet,
    /// A layer of a set: IFCMATERIALLAYER.
    Layer,
    /// The material of a layer: IFCMATERIAL.
    LayerMaterial,
}
