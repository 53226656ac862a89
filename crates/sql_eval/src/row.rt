// Rows and their cells.
use jr_path::{List, Path};
use jr_value::Property;

/// A row of a query's result (JSR 283, 6.7.39 Column): a cell for each column.
pub struct Row {
    pub cells: List<Cell>,
}

// By hand, so that its parts are let go in one call.
impl Drop for Row {
    fn drop(self) {
        let Row { cells } = self;
        drop(cells);
    }
}

/// What a column has in a row: the path of a selector's node, a property, or nothing where an outer join has no node
/// or the node hasn't the property.
pub enum Cell {
    Node(Path),
    Value(Property),
    Null,
}

// By hand, so that its parts are let go in one call.
impl Drop for Cell {
    fn drop(self) {
        match self {
            Cell::Node(path) => drop(path),
            Cell::Value(property) => drop(property),
            Cell::Null => {}
        }
    }
}
