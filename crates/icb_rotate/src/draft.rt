//! The version that a rotation is to put.
ghost use Rattle.std.specs.Prelude.{◌<◌};

use icb_schema::Octets;

/// The version that a rotation is to put.
#[derive(Drop)]
pub(crate) struct Draft {
    /// The version that it was made of, behind which it is to be put.
    pub from: u64,
    /// Its text.
    pub text: Octets,
    /// How often the job tries again where another one is put first.
    pub retries: u64,
    ghost few: { from < 1000000 },
}
