// A program with scalars in registers.
ghost use Rattle.std.specs.Prelude.{◌≡◌, true, map, IfOk};
ghost use Rattle.low_ir.specs.Programs.{low_of};
ghost use Rattle.low_ir.specs.View.{function_of, program};
ghost use Rattle.pass_register_promotion_law.specs.Paying.{IsPromoted, MayBePromoted};
ghost use Rattle.pass_register_promotion_law.specs.Promoting.{promoted_functions};
ghost use Rattle.pass_register_promotion_law.specs.Suiting.{MayReside};
ghost use Rattle.pass_register_promotion.specs.Residents.{of_function, residents_of, row_of, table_of};
ghost use Rattle.pass_register_promotion.specs.Checking.{AreFew, ArePaidBeside, Suit};

use super::choosing::{chosen, rows_of};
use super::making::{promoted_function, promoted_functions, residents_at};
use super::paying::is_paid;
use super::residents::Resident;
use super::suiting::{are_distinct, are_scalars, are_told, blocks_kept, row_at};
use low_ir::{Function, Low};
use low_parts::programs::with_functions;
use low_parts::rooms::has_room;
use std::alloc::Global;
use wcc_base::Memory;

/// How many registers a function may have more.
const SPARE: usize = 8;

/// Whether scalars may be in registers in a function.
fn may_reside(
    low: &Low,
    rows: &[Vec<bool>],
    number: u32,
    function: &Function,
    residents: &[Resident],
) -> bool
    ensures { result ≡ true → MayReside (low_of low.now) (table_of (map row_of rows.now)) number (function_of function.now) (residents_of residents.now) }
{
    are_scalars(&low.objects, residents)
        && are_distinct(residents)
        && are_told(row_at(rows, number), residents)
        && blocks_kept(&low.claims, rows, number, residents, &function.blocks)
}

/// Whether all may be, and are few.
fn suit(low: &Low, rows: &[Vec<bool>], residents: &[Vec<Resident>]) -> bool
    ensures { result ≡ true → Suit (low_of low.now) (table_of (map row_of rows.now)) (map of_function residents.now) }
{
    let mut number = 0u32;
    for function in &low.functions {
        let own = residents_at(residents, number as usize);
        if !may_reside(low, rows, number, function, own) {
            return false;
        }
        match number.checked_add(1) {
            None => return false,
            Some(next) => number = next,
        }
    }
    true
}

fn are_few(residents: &[Vec<Resident>]) -> bool
    ensures { result ≡ true → AreFew (map of_function residents.now) }
{
    for own in residents {
        if own.len() > SPARE {
            return false;
        }
    }
    true
}

/// Whether each function executes no more than it did.
fn are_paid(new: &[Function], old: &[Function]) -> bool
    ensures { result ≡ true → ArePaidBeside (map function_of new.now) (map function_of old.now) }
{
    let mut rest = old;
    for function in new {
        let Some((first, others)) = rest.split_first() else {
            return false;
        };
        if !is_paid(function, first) {
            return false;
        }
        rest = others;
    }
    true
}

/// A program with other functions.
fn made_of(low: Low, new: Vec<Function>) -> Low
    requires { IsPromoted (low_of low) (program new.items low.claims.items low.objects.items low.main low.marks) }
    ensures { IsPromoted (low_of low) (low_of result) }
{
    with_functions(low, new)
}

/// What a program is made of.
#[derive(Drop)]
struct Plan {
    rows: Vec<Vec<bool>>,
    residents: Vec<Vec<Resident>>,
    functions: Vec<Function>,
}

fn planned(alloc: Global, low: &Low) -> Result<Plan, Memory>
    ensures { IfOk result (λ p. map function_of p.functions.items ≡ promoted_functions (map of_function p.residents.items) 0 (map function_of low.now.functions.items)) }
{
    let rows = rows_of(alloc, low)?;
    let found = chosen(alloc, low, &rows)?;
    let residents = all_paying(alloc, &found, &low.functions)?;
    let functions = promoted_functions(alloc, &residents, &low.functions)?;
    Ok(Plan {
        rows,
        residents,
        functions,
    })
}

/// The scalars of a function, or none where it doesn't pay.
fn paying(
    alloc: Global,
    residents: &[Resident],
    function: &Function,
) -> Result<Vec<Resident>, Memory> {
    if residents.is_empty() {
        return Ok(Vec::new(alloc));
    }
    let new = promoted_function(alloc, residents, function)?;
    if is_paid(&new, function) {
        Ok(Vec::from_slice(alloc, residents)?)
    } else {
        Ok(Vec::new(alloc))
    }
}

/// The same by function.
fn all_paying(
    alloc: Global,
    residents: &[Vec<Resident>],
    functions: &[Function],
) -> Result<Vec<Vec<Resident>>, Memory> {
    let mut left = Vec::new(alloc);
    for (number, function) in functions.iter().enumerate() {
        left.push(paying(alloc, residents_at(residents, number), function)?)?;
    }
    Ok(left)
}

/// A program with the global scalars in registers that its loops use most, where that is found.
pub fn promoted(alloc: Global, low: Low) -> Result<Low, Memory>
    ensures { IfOk result (λ l. MayBePromoted (low_of low) (low_of l)) }
{
    match planned(alloc, &low) {
        Err(memory) => {
            drop(low);
            Err(memory)
        }
        Ok(plan) => {
            let Plan {
                rows,
                residents,
                functions,
            } = plan;
            if suit(&low, &rows, &residents)
                && are_few(&residents)
                && are_paid(&functions, &low.functions)
                && has_room(&functions)
            {
                Ok(made_of(low, functions))
            } else {
                drop(functions);
                Ok(low)
            }
        }
    }
}
