//! The three schemas: the forms that the tables of a file may have.

ghost use Rattle.std.specs.Prelude.{◌≡◌};
ghost use Rattle.tables_schema.specs.Schemas.{has_pieces, has_temporary, schema_text};

/// A form of the tables: the second has the table of pieces too, and the third also that of temporary roots.
#[derive(Clone, Copy, Debug, PartialEq, Eq)]
pub enum Schema {
    V1,
    V2,
    V3,
}

impl Schema {
    /// What the setting of the schema says: `1`, `2` or `3`.
    pub fn text(self) -> &'static str
        ensures { result.now ≡ schema_text self }
    {
        match self {
            Schema::V1 => "1",
            Schema::V2 => "2",
            Schema::V3 => "3",
        }
    }

    /// Whether there is a table of pieces.
    pub fn has_pieces(self) -> bool
        ensures { result ≡ has_pieces self }
    {
        match self {
            Schema::V1 => false,
            Schema::V2 | Schema::V3 => true,
        }
    }

    /// Whether there is a table of temporary roots.
    pub fn has_temporary(self) -> bool
        ensures { result ≡ has_temporary self }
    {
        match self {
            Schema::V1 | Schema::V2 => false,
            Schema::V3 => true,
        }
    }
}
