//! The rows of tables.
ghost use Rattle.std.specs.Prelude.{◌≡◌};
ghost use Rattle.code_names.specs.Rows.{meaning_of, row_has, row_of, text_of};

/// What a table says of a code.
#[derive(Clone, Copy)]
pub enum Name {
    Known(&'static str),
    /// No name yet: the standard keeps the code for later.
    Reserved,
    /// Left to vendors.
    VendorSpecific,
    /// The standard, or a later revision of it, may have a name, which isn't known here.
    Unlisted,
}

impl Name {
    /// The name, or why there is none.
    pub fn text(self) -> &'static str
        ensures { result.now ≡ text_of (meaning_of self) }
    {
        match self {
            Name::Known(text) => text,
            Name::Reserved => "reserved",
            Name::VendorSpecific => "vendor specific",
            Name::Unlisted => "not listed",
        }
    }
}

/// What is said of the codes from `first` to `last`.
#[derive(Clone, Copy)]
pub struct Row {
    pub first: u8,
    pub last: u8,
    pub name: Name,
}

impl Row {
    pub fn has(&self, code: u8) -> bool
        ensures { result ≡ row_has code (row_of self.now) }
    {
        self.first <= code && code <= self.last
    }
}
