//! Laws of the field, each the contract of a function that does nothing.

ghost use Rattle.icb_ghash.specs.Laws.{InverseExists, OneIsUnit, ProductAssociates, ProductCommutes, ProductDistributes, ProductIsClosed, ProductWithXShifts};

/// The polynomials are a field, and the product with x determines the product (NIST SP 800-38D, 6.3).
pub fn product_laws()
    ensures commutes { ProductCommutes }
    ensures associates { ProductAssociates }
    ensures distributes_over_the_sum { ProductDistributes }
    ensures has_the_unit { OneIsUnit }
    ensures has_inverses { InverseExists }
    ensures with_x_is_the_shift { ProductWithXShifts }
    ensures is_closed { ProductIsClosed }
{}
