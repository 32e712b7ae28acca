//! Which options each command has, and the form of each value.
ghost use Rattle.std.specs.Prelude.{◌≡◌, Some};
ghost use Rattle.icb_words.specs.Options.{form_of};
ghost use Rattle.icb_words.specs.OptionTables.{number_options, options_of};

use crate::forms::ValueForm;

/// The commands that have options.
#[derive(Clone, Copy, Debug, PartialEq, Eq)]
pub enum OptionTable {
    /// Those of `cat-file`.
    CatFile,
    /// Those of `seal-file`.
    SealFile,
    /// Those of `create`.
    Create,
    /// Those of `scan`.
    Scan,
    /// Those of `rotate`.
    Rotate,
    /// Those of a command that is given a keyring alone.
    Keyring,
    /// Those of a command that has none.
    Empty,
}

impl OptionTable {
    /// The form of the value of the option with this name, if the command has it.
    pub fn form_of(self, name: &str) -> Option<ValueForm>
        ensures { result ≡ form_of (options_of self) name.now }
    {
        match self {
            OptionTable::CatFile => cat_file_form(name),
            OptionTable::SealFile => seal_file_form(name),
            OptionTable::Create => create_form(name),
            OptionTable::Scan => scan_form(name),
            OptionTable::Rotate => rotate_form(name),
            OptionTable::Keyring => keyring_form(name),
            OptionTable::Empty => None,
        }
    }
}

/// The form of an option of `cat-file`.
fn cat_file_form(name: &str) -> Option<ValueForm>
    ensures { result ≡ form_of (options_of OptionTable.CatFile) name.now }
{
    match name {
        "--key" => Some(ValueForm::Key),
        "--length" | "--skip" | "--take" => Some(ValueForm::Number),
        "--prefix" => Some(ValueForm::Text),
        _ => None,
    }
}

/// The form of an option of `seal-file`.
fn seal_file_form(name: &str) -> Option<ValueForm>
    ensures { result ≡ form_of (options_of OptionTable.SealFile) name.now }
{
    match name {
        "--key-bytes" => Some(ValueForm::KeyBytes),
        "--block" => within(1, 16777216),
        _ => None,
    }
}

/// The form of an option of `create`.
fn create_form(name: &str) -> Option<ValueForm>
    ensures { result ≡ form_of (options_of OptionTable.Create) name.now }
{
    match name {
        "--keys" => Some(ValueForm::Text),
        "--master" => Some(ValueForm::Id),
        "--schema" => Some(ValueForm::Schema),
        "--location" => Some(ValueForm::Location),
        "--key-bytes" => Some(ValueForm::KeyBytes),
        _ => number_form(name),
    }
}

/// The form of an option of a new table that is a number.
fn number_form(name: &str) -> Option<ValueForm>
    ensures { result ≡ form_of number_options name.now }
{
    match name {
        "--block" => within(1, 16777216),
        "--avro-block" => within(1, 1048576),
        "--rows-per-file" => within(1, 1000000),
        "--retries" => within(0, 100),
        _ => None,
    }
}

/// The form of an option of `scan`.
fn scan_form(name: &str) -> Option<ValueForm>
    ensures { result ≡ form_of (options_of OptionTable.Scan) name.now }
{
    match name {
        "--keys" | "--metadata" => Some(ValueForm::Text),
        "--snapshot" => Some(ValueForm::Number),
        "--columns" | "--range" | "--low" | "--high" => Some(ValueForm::Text),
        "--skip" | "--take" => Some(ValueForm::Number),
        _ => None,
    }
}

/// The form of an option of `rotate`.
fn rotate_form(name: &str) -> Option<ValueForm>
    ensures { result ≡ form_of (options_of OptionTable.Rotate) name.now }
{
    match name {
        "--keys" => Some(ValueForm::Text),
        "--master" => Some(ValueForm::Id),
        _ => None,
    }
}

/// The form of an option of a command that is given a keyring alone.
fn keyring_form(name: &str) -> Option<ValueForm>
    ensures { result ≡ form_of (options_of OptionTable.Keyring) name.now }
{
    match name {
        "--keys" => Some(ValueForm::Text),
        _ => None,
    }
}

/// The form of a number from the least to the most one.
fn within(least: u32, most: u32) -> Option<ValueForm>
    ensures { result ≡ Some (ValueForm.Within least most) }
{
    Some(ValueForm::Within { least, most })
}
