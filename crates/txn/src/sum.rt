// Pending additions to the value at a key, for read-your-writes. Used by `own` and `merge`.
ghost use Rattle.std.specs.Prelude.{◌≡◌, ℕ, List, [], ◌∷◌, Option, Some, IfOk};
ghost use Rattle.std.specs.Option.{option_copied};
ghost use Rattle.kv_core.specs.Addition.{added};
ghost use Rattle.txn.specs.Own.{sum_over};

use kv_core::{Bytes, add_le};
use std::alloc::{AllocError, Global};
use std::marker::Model;

/// What is added to the value at a key: operands, one after another.
///
/// An operand that has no more bytes than the one before it is added to that one at once, so that
/// as few stand here as can tell the sum over any value.
#[derive(Debug, Drop)]
pub(crate) struct Sum {
    operands: Vec<Bytes>,
}

impl Model for Sum {
    ghost use Rattle.std.specs.Prelude.{List, ℕ};

    ghost Value = { List (List ℕ) };

    ghost view = { λ a. a.operands.items };
}

/// The sum of a value and an operand, in as many bytes as the operand has.
fn total(alloc: Global, value: &Bytes, operand: &Bytes) -> Result<Bytes, AllocError>
    ensures { IfOk result (λ sum. sum ≡ added (Some value.now) operand.now) }
{
    let bytes = add_le(alloc, Some(value.as_slice()), operand.as_slice())?;
    Ok(Bytes::new(bytes))
}

/// The value that operands, one after another, make of this one.
fn total_of(alloc: Global, operands: &[Bytes], value: Bytes) -> Result<Bytes, AllocError>
    ensures { IfOk result (λ sum. sum ≡ sum_over operands.now (Some value)) }
{
    let mut sum = value;
    for operand in operands {
        sum = total(alloc, &sum, operand)?;
    }
    Ok(sum)
}

impl Sum {
    /// The addition of one operand.
    pub(crate) fn new(alloc: Global, operand: &Bytes) -> Result<Sum, AllocError>
        ensures { IfOk result (λ sum. sum ≡ operand.now ∷ []) }
    {
        let mut operands = Vec::new(alloc);
        operands.push(operand.copy()?)?;
        Ok(Sum { operands })
    }

    /// The sum with an operand added after the others. Where memory runs out it is gone.
    pub(crate) fn plus(self, alloc: Global, operand: &Bytes) -> Result<Sum, AllocError>
        ensures { IfOk result (λ sum.
            (before : Option (List ℕ)) → sum_over sum before ≡ added (Some (sum_over self before)) operand.now) }
    {
        let mut operands = self.operands;
        let mut last = operand.copy()?;
        while let Some(earlier) = operands.pop() {
            if earlier.as_slice().len() < last.as_slice().len() {
                operands.push(earlier)?;
                break;
            }
            last = total(alloc, &earlier, &last)?;
        }
        operands.push(last)?;
        Ok(Sum { operands })
    }

    /// The sum over a value that was there, or over none.
    pub(crate) fn over(&self, alloc: Global, before: Option<&Bytes>) -> Result<Bytes, AllocError>
        ensures { IfOk result (λ sum. sum ≡ sum_over self.now (option_copied before.entry)) }
    {
        let value = match before {
            Some(value) => value.copy()?,
            None => Bytes::new(Vec::new(alloc)),
        };
        let sum = total_of(alloc, self.operands.as_slice(), value)?;
        Ok(sum)
    }
}
