//! A law of counting, as the contract of a call that does nothing.

ghost use Rattle.std.specs.Prelude.{List, Option, ℕ};
ghost use Rattle.std.specs.List.{All};
ghost use Rattle.common_laws.specs.Maps.{Contents};
ghost use Rattle.col_value.specs.declared.row.Stamped.{Stamped};
ghost use Rattle.stored_rows.specs.Stored.{Projected, Stores};
ghost use Rattle.exec_scan.specs.Counting.{HaveIndexes, Indexes, IndexesDefaults};
ghost use Rattle.exec_scan.specs.Scanning.{AreOwn};

/// The files of a projection that stores rows hold indexes of all columns, so that what a scan reads is bounded by them.
pub fn stored_rows_have_indexes()
    ensures { (m : Contents) (p : Projected) (rows : List Stamped) (places : List (Option ℕ)) → Stores m p rows → AreOwn p.entry places → All (IndexesDefaults p.entry) p.entry.containers → (indexes : Indexes) × HaveIndexes m p.entry places indexes }
{}
