//! The laws.

ghost use Rattle.std.specs.Prelude.{ℕ, ◌≡◌, ◌<◌, get_or, length, List};
ghost use Rattle.catalog_types.specs.declared.catalogue.Catalogue.{Catalogue};
ghost use Rattle.catalog_types.specs.declared.catalogue.Projection.{Projection};
ghost use Rattle.catalog_types.specs.declared.catalogue.Table.{Table};
ghost use Rattle.catalog_types.specs.Valid.{IsValid};
ghost use Rattle.catalog_laws.specs.Entries.{with_entry_in, IsEntryAfter};
ghost use Rattle.catalog_laws.specs.Going.{alone, GoesOn, IsNext};

/// A catalogue that has some tables in the place of others of a valid one, which keep the rules by themselves, is valid.
#[tactic(auto, using(crate::proofs::Nexts::next_valid))]
pub fn the_next_catalogue_is_valid()
    ensures { (c n : Catalogue) (front old new back : List Table) → IsValid c → IsNext c n front old new back → IsValid n }
{}

/// A table of a valid catalogue stays valid by itself in the next one, where one of its projections gets an entry that keeps the rules.
pub fn an_entry_keeps_its_table_valid()
    ensures { (c : Catalogue) (last next i j : ℕ) (t : Table) (old new : Projection) → IsValid c → GoesOn c last next → i < length c.tables → t ≡ get_or c.tables i t → j < length t.projections → old ≡ get_or t.projections j old
        → IsEntryAfter c last next old new → IsValid (alone last c.ahm next (with_entry_in j new t)) }
{}
