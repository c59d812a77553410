// What an operator asks of the order of two values.
ghost use Rattle.std.specs.Prelude.{◌≡◌};
ghost use Rattle.terms.specs.Operators.{holds};

use crate::Operator;
use std::cmp::Ordering;

// R25: o is how the field stands to the value.
pub fn holds(p: Operator, o: Ordering) -> bool
    ensures { result ≡ holds p o }
{
    match p {
        Operator::Eq => o.is_eq(),
        Operator::Ne => o.is_ne(),
        Operator::Lt => o.is_lt(),
        Operator::Le => o.is_le(),
        Operator::Gt => o.is_gt(),
        Operator::Ge => o.is_ge(),
    }
}
