use crate::Tree;

/// An expression as it was read. `holds`: a BETWEEN or an IN stands in what spelled it, at any depth.
#[derive(Debug, Drop)]
pub struct Part {
    pub tree: Tree,
    pub holds: bool,
}

/// A part of a sum behind its first one, and whether its sign is a minus.
#[derive(Debug, Drop)]
pub struct Addend {
    pub minus: bool,
    pub part: Part,
}

/// `COUNT(*)`, `COUNT(part)` or `SUM(part)`: an aggregate, or, with OVER behind it, a window function.
#[derive(Debug, Drop)]
pub enum Tally {
    All,
    Count(Part),
    Sum(Part),
}
