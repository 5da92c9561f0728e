//! A law above the definitions, as the contract of a call that does nothing.

ghost use Rattle.expr_places.specs.Places.{ColumnsDecide};

/// An expression has the same value over two rows that agree in the columns at which it looks.
pub fn columns_decide()
    ensures { ColumnsDecide }
{}
