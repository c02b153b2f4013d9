// The entities that are looked at, each by its view, and what follows from each.
mod materials;
mod placements;
mod products;
mod profiles;
mod relations;
mod shapes;
