use catalog_types::Catalogue;

/// What a disk opens to: nothing was ever stored on it, or this version of the catalogue.
#[derive(Debug, Drop, PartialEq, Eq)]
pub enum Found {
    Fresh,
    Root { version: u64, catalogue: Catalogue },
}
