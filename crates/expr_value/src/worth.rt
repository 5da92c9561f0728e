ghost use Rattle.std.specs.Prelude.{◌≡◌, ◌≤◌, if◌then◌else◌, Some, None, IfOk};
ghost use Rattle.sql_bound.specs.Bounds.{bound_of_value, result_bound};
ghost use Rattle.sql_bound.specs.Values.{number_in, truth_in, number, truth, negated, denied, holds, are_kin, compared, is_null, is_true};
ghost use Rattle.col_value.specs.Order.{widened, wide_cmp};
ghost use Rattle.expr_value.specs.Worths.{wide_of};

use col_value::{Text, Value, Wide};
use sql_tree::Cmp;
use std::alloc::{AllocError, Global};
use std::cmp::Ordering;

/// A value of an expression. A text stands where it stood: in the row, in the key, in the aggregate or in the expression.
#[derive(Clone, Copy)]
pub enum Worth<'a> {
    Null,
    Bool(bool),
    Int(i128),
    Date(u32),
    Text(&'a Text),
}

impl<'a> Worth<'a> {
    /// The value, with a text of its own.
    pub fn own(&self, alloc: Global) -> Result<Wide, AllocError>
        ensures { IfOk result (λ w. w ≡ wide_of self.now) }
    {
        match self {
            Worth::Null => Ok(Wide::Null),
            Worth::Bool(b) => Ok(Wide::Bool(*b)),
            Worth::Int(n) => Ok(Wide::Int(*n)),
            Worth::Date(d) => Ok(Wide::Date(*d)),
            Worth::Text(t) => Ok(Wide::Text(t.copy(alloc)?)),
        }
    }

    /// Whether it is the truth value true; NULL is not.
    pub fn is_true(&self) -> bool
        ensures { result ≡ is_true (wide_of self.now) }
    {
        match self {
            Worth::Bool(b) => *b,
            Worth::Null | Worth::Int(_) | Worth::Date(_) | Worth::Text(_) => false,
        }
    }

    /// Whether it is NULL.
    pub fn is_null(&self) -> bool
        ensures { result ≡ is_null (wide_of self.now) }
    {
        match self {
            Worth::Null => true,
            Worth::Bool(_) | Worth::Int(_) | Worth::Date(_) | Worth::Text(_) => false,
        }
    }

    /// The value of a column.
    pub fn of_value(value: &'a Value) -> Worth<'a>
        ensures { wide_of result ≡ widened value.now }
    {
        match value {
            Value::Null => Worth::Null,
            Value::Bool(b) => Worth::Bool(*b),
            Value::Int(n) => Worth::Int(i128::from(*n)),
            Value::Date(d) => Worth::Date(*d),
            Value::Text(t) => Worth::Text(t),
        }
    }

    /// The value of an aggregate, or of a literal.
    pub fn of_wide(value: &'a Wide) -> Worth<'a>
        ensures { wide_of result ≡ value.now }
    {
        match value {
            Wide::Null => Worth::Null,
            Wide::Bool(b) => Worth::Bool(*b),
            Wide::Int(n) => Worth::Int(*n),
            Wide::Date(d) => Worth::Date(*d),
            Wide::Text(t) => Worth::Text(t),
        }
    }

    /// A number, NULL where there is none.
    pub fn of_number(found: Option<i128>) -> Worth<'a>
        ensures { wide_of result ≡ number found }
    {
        match found {
            Some(n) => Worth::Int(n),
            None => Worth::Null,
        }
    }

    /// A truth value, NULL where it is unknown.
    pub fn of_truth(known: Option<bool>) -> Worth<'a>
        ensures { wide_of result ≡ truth known }
    {
        match known {
            Some(b) => Worth::Bool(b),
            None => Worth::Null,
        }
    }

    /// The number that it is, if it is one.
    pub fn number(&self) -> Option<i128>
        ensures { result ≡ number_in (wide_of self.now) }
    {
        match self {
            Worth::Int(n) => Some(*n),
            Worth::Null | Worth::Bool(_) | Worth::Date(_) | Worth::Text(_) => None,
        }
    }

    /// The truth value that it is, if it is one.
    pub fn truth(&self) -> Option<bool>
        ensures { result ≡ truth_in (wide_of self.now) }
    {
        match self {
            Worth::Bool(b) => Some(*b),
            Worth::Null | Worth::Int(_) | Worth::Date(_) | Worth::Text(_) => None,
        }
    }

    /// The number with its sign turned.
    pub fn negated(&self) -> Worth<'a>
        requires { bound_of_value (wide_of self.now) ≤ result_bound }
        ensures { wide_of result ≡ negated (wide_of self.now) }
    {
        match self {
            Worth::Int(n) => Worth::Int(-*n),
            Worth::Null | Worth::Bool(_) | Worth::Date(_) | Worth::Text(_) => Worth::Null,
        }
    }

    /// NOT of a truth value; what is unknown stays so.
    pub fn denied(&self) -> Worth<'a>
        ensures { wide_of result ≡ denied (wide_of self.now) }
    {
        match self {
            Worth::Bool(b) => Worth::Bool(!*b),
            Worth::Null | Worth::Int(_) | Worth::Date(_) | Worth::Text(_) => Worth::Null,
        }
    }

    /// Whether the comparison holds; it is unknown where one of the two is NULL.
    pub fn compared(&self, cmp: Cmp, other: &Worth<'_>) -> Worth<'a>
        ensures { wide_of result ≡ compared cmp (wide_of self.now) (wide_of other.now) }
    {
        match self.order(other) {
            Some(order) => Worth::Bool(holds(cmp, order)),
            None => Worth::Null,
        }
    }

    /// How two values of one kind stand; None where they are not, or are NULL.
    fn order(&self, other: &Worth<'_>) -> Option<Ordering>
        ensures { result ≡ (if are_kin (wide_of self.now) (wide_of other.now) then Some (wide_cmp (wide_of self.now) (wide_of other.now)) else None) }
    {
        match (self, other) {
            (Worth::Bool(a), Worth::Bool(b)) => Some(a.cmp(b)),
            (Worth::Int(a), Worth::Int(b)) => Some(a.cmp(b)),
            (Worth::Date(a), Worth::Date(b)) => Some(a.cmp(b)),
            (Worth::Text(a), Worth::Text(b)) => Some(a.order(b)),
            _ => None,
        }
    }
}

/// Whether a comparison holds of two values that stand so.
fn holds(cmp: Cmp, order: Ordering) -> bool
    ensures { result ≡ holds cmp order }
{
    match cmp {
        Cmp::Eq => order.is_eq(),
        Cmp::Ne => !order.is_eq(),
        Cmp::Lt => order.is_lt(),
        Cmp::Le => order.is_le(),
        Cmp::Gt => order.is_gt(),
        Cmp::Ge => order.is_ge(),
    }
}
