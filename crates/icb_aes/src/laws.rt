//! Laws of the definitions, each the contract of a function that does nothing.

ghost use Rattle.std.specs.Prelude.{◌≡◌};
ghost use Rattle.icb_aes.specs.Field.{inverse};
ghost use Rattle.icb_aes.specs.Laws.{CipherIsInvertible, InverseInverts, InverseIsUnique, MixColumnIsInvertible, OneIsUnit, ProductAssociates, ProductCommutes, ProductDistributes, ProductIsRemainder, ScheduleRecurs, ShiftRowsIsInvertible};

/// The product of bytes is that of polynomials modulo m(x) (FIPS 197, 4.2).
pub fn product_is_remainder()
    ensures { ProductIsRemainder }
{}

/// The laws of the field's product (FIPS 197, 4.2).
pub fn product_laws()
    ensures commutes { ProductCommutes }
    ensures associates { ProductAssociates }
    ensures distributes_over_the_sum { ProductDistributes }
    ensures has_the_unit { OneIsUnit }
{}

/// What the inverse is (FIPS 197, 4.2 and 5.1.1).
pub fn inverse_laws()
    ensures inverts { InverseInverts }
    ensures is_the_only_one { InverseIsUnique }
    ensures of_zero { inverse 0 ≡ 0 }
{}

/// ShiftRows can be undone (FIPS 197, 5.3.1).
pub fn shift_rows_is_invertible()
    ensures { ShiftRowsIsInvertible }
{}

/// MixColumns can be undone, column by column (FIPS 197, 5.3.3).
pub fn mix_column_is_invertible()
    ensures { MixColumnIsInvertible }
{}

/// The key schedule obeys the standard's recurrence (FIPS 197, 5.2).
pub fn schedule_recurs()
    ensures { ScheduleRecurs }
{}

/// The inverse cipher undoes the cipher (FIPS 197, 5.3), so that no two blocks have one cipher.
pub fn cipher_is_invertible()
    ensures { CipherIsInvertible }
{}
