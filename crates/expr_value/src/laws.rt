//! Laws above the definitions, each as the contract of a call that does nothing.

ghost use Rattle.expr_value.specs.Laws.{NullJoinsNothing, FalseSettles, TrueSettles, IsValueBounded, IsNarrowFitting};

/// A comparison with NULL is true of nothing, so NULL joins nothing.
pub fn null_joins_nothing()
    ensures { NullJoinsNothing }
{}

/// A false part makes an AND false and a true part an OR true, whatever the others.
pub fn one_part_settles()
    ensures all { FalseSettles }
    ensures some { TrueSettles }
{}

/// No value of an expression is greater than its bound, and where the expression is narrow it is at most 2^127 - 1.
pub fn value_bounded()
    ensures bounded { IsValueBounded }
    ensures narrow { IsNarrowFitting }
{}
