// The order of a slot's points as two tables: the places of its points, and the points at its places. To be had once for a symbol or a block, since
// each call copies the table.
#![tactic(auto)]

mod place_table;
mod point_table;
mod table;

use place_table::PLACES;
use point_table::POINTS;
pub use table::{Order, PlaceOf, PointAt, Table};

pub fn places() -> Table<PlaceOf> {
    Table::of(PLACES)
}

pub fn points() -> Table<PointAt> {
    Table::of(POINTS)
}
