// The laws of what is read of products.
ghost use Rattle.sb_building.specs.Laws.{ProductsAreRead, OneCondition, OneFirstIn, FileComesFirst, ProductsFollow, OneModel, LeastOfProducts};

use sb_place::one_chain;
use sb_step::one_list_of_parameters;

/// A law of files: what is at fault in the chain or in the shape of a taken product is an instance that is
/// read, so it is a defect of the file before any condition of a product.
#[inline(always)]
pub fn products_are_read()
    ensures { ProductsAreRead }
{
    one_list_of_parameters();
}

/// Laws of the conditions on products: each product has one at most; a file and its products have one
/// first defect, or none; that of the file comes first, and where it has none the first of its products.
#[inline(always)]
pub fn one_first_of_all()
    ensures condition { OneCondition }
    ensures first { OneFirstIn }
    ensures file { FileComesFirst }
    ensures products { ProductsFollow }
{
    one_chain();
    one_list_of_parameters();
}

/// A law of files: each has one model at most for each height of the ground and each reach, by what it
/// says.
#[inline(always)]
pub fn one_model()
    ensures { OneModel }
{
    one_chain();
    one_list_of_parameters();
}

/// A law of products: where it was found of each taken one which condition it has, or that it has none, the
/// least of these conditions is the first defect of products.
#[inline(always)]
pub fn least_of_products()
    ensures { LeastOfProducts }
{
    one_chain();
    one_list_of_parameters();
}
