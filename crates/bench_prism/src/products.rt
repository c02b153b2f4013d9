// Products that share a shape.
use sb_prism::Judged;

/// How many of these products have a prism, each 100 mm from the one before.
pub(crate) fn with_prism(judged: &Judged, products: u32) -> u32 {
    let mut count: u32 = 0;
    for product in 0..products {
        let shift = [(product % 1000) as i128 * 100_000_000, 0, 0];
        if judged.placed(shift).is_ok() {
            count = count.saturating_add(1);
        }
    }
    count
}
