use plant_book::Entry;

/// What a pass did at the desk. Contracts alone speak of deeds; no value of it is made.
pub enum Deed {
    /// It entered a call, which got this entry.
    Entered(u32, Entry),
    /// It rolled the book over.
    Rolled(u32),
}
