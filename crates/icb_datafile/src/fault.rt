//! Why the rows of a data file aren't printed.
use icb_reader::RecordsFault;

/// Why the rows of a data file aren't printed, or not all of them.
#[derive(Debug, Drop)]
pub enum RowsFault<F> {
    /// The file is refused, its reader refused a read, or no memory was left.
    File(RecordsFault<F>),
    /// The sink failed.
    Sink,
}

impl<F> From<RecordsFault<F>> for RowsFault<F> {
    ghost use Rattle.std.specs.Prelude.{◌≡◌};
    ghost use Rattle.icb_datafile.specs.declared.fault.RowsFault.TheVariants as variant;

    ghost from_gives = { λ inner fault. fault ≡ variant.File inner };

    fn from(inner: RecordsFault<F>) -> Self {
        RowsFault::File(inner)
    }
}
