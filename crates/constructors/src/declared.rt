use rs_types::AdtTable;

/// What a source declares.
#[derive(Drop)]
pub struct Declared {
    /// `Option` where no item declares a type of that name, and then the structs and enums in source order.
    pub table: AdtTable,
}
