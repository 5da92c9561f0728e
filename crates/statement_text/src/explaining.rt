//! The lines of EXPLAIN.

ghost use Rattle.std.specs.Prelude.{◌≡◌, ◌++◌, codes, map, zip, IfOk, OnOk};
ghost use Rattle.std.specs.List.{flat_map};
ghost use Rattle.sql_binding.specs.Sight.{item_name};
ghost use Rattle.db_model.specs.Printing.{explain_text};
ghost use Rattle.db_model.specs.State.{State};
ghost use Rattle.db_model.specs.Views.{bound_in};
ghost use Rattle.folder_model.specs.Projections.{shape_of};
ghost use Rattle.statement_text.specs.Explained.{chosen_name, name_among, scan_over, shapes_of, HaveShapes};

use catalog_types::{Projection, Table};
use plan_choice::choose;
use sql_bound::{BoundQuery, FromItem};
use sql_tree::{Query, Source};
use std::alloc::{AllocError, Global};

/// What a FROM item is called: its alias, or its table where it has none.
fn item_name(source: &Source) -> &[u8]
    ensures { result.now ≡ item_name source.now }
{
    match &source.alias {
        Some(alias) => alias.as_slice(),
        None => source.table.as_slice(),
    }
}

/// The name of the projection that is chosen among those of a table.
fn name_among<'a>(query: &BoundQuery, item: FromItem, projections: &'a [Projection]) -> &'a [u8]
    ensures { result.now ≡ name_among query.now item (map shape_of projections.now) }
{
    match choose(query, item, projections) {
        Some(place) => projections[place].name.as_slice(),
        None => &[],
    }
}

/// The name of the projection that is chosen for a FROM item.
fn chosen_name<'a>(query: &BoundQuery, item: FromItem, tables: &'a [Table]) -> &'a [u8]
    ensures { result.now ≡ chosen_name query.now (map shapes_of tables.now) item }
{
    match tables.get(item.table) {
        Some(table) => name_among(query, item, table.projections.as_slice()),
        None => &[],
    }
}

/// Appends `SCAN item projection`.
fn print_scan(item: &[u8], projection: &[u8], out: &mut Vec<u8>) -> Result<(), AllocError>
    ensures { OnOk result (out.new.items ≡ out.old.items ++ (codes "SCAN " ++ (item.now ++ (codes " " ++ (projection.now ++ codes "\n"))))) }
{
    out.extend_from_slice(b"SCAN ")?;
    out.extend_from_slice(item)?;
    out.extend_from_slice(b" ")?;
    out.extend_from_slice(projection)?;
    out.extend_from_slice(b"\n")
}

/// Appends the line of each FROM item.
fn print_scans(
    query: &BoundQuery,
    sources: &[Source],
    tables: &[Table],
    out: &mut Vec<u8>,
) -> Result<(), AllocError>
    ensures { OnOk result (out.new.items ≡ out.old.items ++ flat_map (scan_over query.now (map shapes_of tables.now)) (zip sources.now query.now.sources)) }
{
    let items = query.sources.as_slice();
    for i in 0..sources.len().min(items.len()) {
        let (source, item) = (&sources[i], items[i]);
        print_scan(item_name(source), chosen_name(query, item, tables), out)?;
    }
    Ok(())
}

/// The lines of EXPLAIN: for each FROM item of the query the projection that it reads, chosen over the tables by the bound tree. Over a state
/// whose tables have these projections, and in which the query has this tree, they are what EXPLAIN prints.
pub fn explain(
    alloc: Global,
    query: &Query,
    bound: &BoundQuery,
    tables: &[Table],
) -> Result<Vec<u8>, AllocError>
    ensures { IfOk result (λ v. (state : State) → bound.now ≡ bound_in state query.now → HaveShapes tables.now state.database.tables → v.items ≡ explain_text state query.now) }
{
    let mut out = Vec::new(alloc);
    print_scans(bound, query.sources.as_slice(), tables, &mut out)?;
    Ok(out)
}
