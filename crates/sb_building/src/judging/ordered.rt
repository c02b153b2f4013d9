// Products by rising numbers.
ghost use Rattle.std.specs.Prelude.{◌≡◌, ℕ, nat_eq, Some, IfOk, OnOk, if◌then◌else◌};
ghost use Rattle.std.specs.Ordering.{nat_cmp};
ghost use Rattle.std.specs.Map.{values_of};
ghost use Rattle.std.specs.BTreeMap.{get, IsOrdered};
ghost use Rattle.sb_profile.specs.declared.reading.products.Shaped.{Shaped as ShapedOf};
ghost use Rattle.sb_building.specs.Steps.Order as spec;

use sb_profile::Shaped;
use std::alloc::{AllocError, Global};
use std::collections::BTreeMap;

/// These products by rising numbers, each number once.
pub(crate) fn in_order(alloc: Global, products: &[Shaped]) -> Result<Vec<Shaped>, AllocError>
    ensures { IfOk result (λ list. spec.AreInOrder (λ (p : ShapedOf). p.number) products.now list.items) }
{
    let by_number = by_number(alloc, products)?;
    let list = listed(alloc, &by_number)?;
    Ok(list)
}

/// The product of each number.
fn by_number(alloc: Global, products: &[Shaped]) -> Result<BTreeMap<u32, Shaped>, AllocError>
    ensures { IfOk result (λ m. spec.HasEach (λ (p : ShapedOf). p.number) products.now (get nat_cmp m)) }
{
    let mut by_number = BTreeMap::new(alloc);
    'products: for product in products {
        put(&mut by_number, *product)?;
    }
    Ok(by_number)
}

fn put(by_number: &mut BTreeMap<u32, Shaped>, product: Shaped) -> Result<(), AllocError>
    ensures { OnOk result ((q : ℕ) → get nat_cmp by_number.new q
        ≡ (if nat_eq q product.number then Some product else get nat_cmp by_number.old q)) }
{
    by_number.insert(product.number, product)?;
    Ok(())
}

/// The products of a map, by their keys.
fn listed(alloc: Global, by_number: &BTreeMap<u32, Shaped>) -> Result<Vec<Shaped>, AllocError>
    ensures values { IfOk result (λ list. list.items ≡ values_of by_number.now.entries) }
    ensures ordered { IfOk result (λ _. IsOrdered nat_cmp by_number.now) }
{
    let mut list = Vec::new(alloc);
    'products: for (_, product) in by_number {
        list.push(*product)?;
    }
    Ok(list)
}
