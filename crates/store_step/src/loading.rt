//! COPY: the rows of a load file join the session's pending rows, and the session commits.

ghost use Rattle.std.specs.Prelude.{ℕ, ◌≡◌, ◌<◌, ◌||◌, false, not, map, length, List as Items, None, Some, IfOk, IsSomeAnd, IfErr};
ghost use Rattle.std.specs.List.{All, slice_get};
ghost use Rattle.common_laws.specs.Causes.{HasCause};
ghost use Rattle.col_value.specs.Order.{IsRow};
ghost use Rattle.db_model.specs.Database.{Table as ATable};
ghost use Rattle.db_model.specs.Loading.{load_column, Files as LoadFiles, Load, Loads};
ghost use Rattle.db_model.specs.Refusals.{is_large_file, load_refusal, locked};
ghost use Rattle.db_model.specs.State.{has_changes, is_empty, State};
ghost use Rattle.sql_tree.specs.declared.statement.Statement.{Statement};
ghost use Rattle.sql_tree.specs.Spells.{Spells};
ghost use Rattle.sql_words.specs.Symbols.{symbols_of};
ghost use Rattle.statement_plan.specs.Places.{table_place};
ghost use Rattle.store_core.specs.Named.{NamesHeld};
ghost use Rattle.store_core.specs.Running.{frame_of, IsState};
ghost use Rattle.store_core.specs.Sessions.{own_of};
ghost use Rattle.store_step.specs.Arms.{Answers};
ghost use Rattle.store_step.specs.Faults.{NamesStepped};
ghost use Rattle.store_step.specs.Loading.{IsLoadable};
ghost use Rattle.store_step.specs.Steps.{Steps};

use crate::answer::{Answer, StepFault};
use crate::answering::{in_memory, in_store, of_text, printed, refused, unplanned};
use catalog_types::Table;
use col_disk::{Disk, StoreFault};
use col_io::{Files, FilesFault, Got};
use col_value::{Column, Name, Row, Text};
use folder_model::every_image_reopens;
use load_reader::{LoadColumn, LoadFault, read};
use sql_tree::Refusal;
use state_laws::{commits_of_a_session_are_sound, loaded_rows_fit, pending_rows_are_sound};
use statement_plan::{
    early_refusals_stand, load_refusal, loadable_table, rows_decide_nothing_here,
};
use statement_text::copy_text;
use std::alloc::{AllocError, Global};
use store_core::{Store, frames_are_of_the_state};

// The most bytes of a load file.
const MOST_BYTES: usize = 67_108_864;

/// A column as the reader of load files sees it.
fn load_column(column: &Column) -> LoadColumn
    ensures { result ≡ load_column column.now }
{
    LoadColumn {
        kind: column.kind,
        not_null: column.not_null,
    }
}

/// The columns of a table as the reader of load files sees them.
fn load_columns(alloc: Global, columns: &[Column]) -> Result<Vec<LoadColumn>, AllocError>
    ensures { IfOk result (λ v. v.items ≡ map load_column columns.now) }
{
    let mut out = Vec::with_capacity(alloc, columns.len())?;
    for column in columns {
        out.push(load_column(column))?;
    }
    Ok(out)
}

/// The columns of the table at a place as the reader of load files sees them.
fn columns_of(alloc: Global, tables: &[Table], place: usize) -> Result<Vec<LoadColumn>, AllocError>
    requires { place < length tables.now }
    ensures { IfOk result (λ v. IsSomeAnd (slice_get tables.now place) (λ t. v.items ≡ map load_column t.columns)) }
{
    load_columns(alloc, tables[place].columns.as_slice())
}

/// Whether the commit of a COPY of these rows closes an epoch.
fn closes(store: &Store, rows: &[Row]) -> bool
    ensures { result ≡ (not (is_empty rows.now) || has_changes (own_of store.now)) }
{
    !rows.is_empty() || store.has_changes()
}

/// COPY, that isn't refused, of the rows of a load file.
fn commit_rows<D: Disk>(
    alloc: Global,
    store: &mut Store,
    table: &[u8],
    rows: Vec<Row>,
    disk: &mut D,
) -> Result<Answer, StoreFault>
    requires { All IsRow rows.items }
    ensures answers { (files : LoadFiles) (file bytes : Items ℕ) (e : ℕ × ATable) (state : State) → IsState ⟦<D as Disk>⟧ store.old disk.old state → IsLoadable state files table.now file bytes e → Loads e.1.columns bytes (Load.Rows rows.items)
        → load_refusal state table.now (Load.Rows rows.items) ≡ None → Answers ⟦<D as Disk>⟧ files (Statement.Copy table.now file) store.new disk.old disk.new result state }
    ensures named { IfErr result (NamesHeld ⟦<D as Disk>⟧ store.new disk.new) }
    ensures cause { HasCause StoreFault.Disk (D.faults disk.old) (D.faults disk.new) result }
{
    every_image_reopens::<D>();
    loaded_rows_fit();
    pending_rows_are_sound();
    commits_of_a_session_are_sound();
    let loaded = rows.as_slice();
    let commits = closes(store, loaded);
    let text = match copy_text(alloc, loaded.len(), commits, store.last()) {
        Ok(text) => text,
        Err(AllocError) => return Err(StoreFault::Memory),
    };
    in_store(printed(text), store.load(alloc, table, rows, disk))
}

/// COPY of the rows of a load file.
fn load_rows<D: Disk>(
    alloc: Global,
    store: &mut Store,
    table: &[u8],
    rows: Vec<Row>,
    disk: &mut D,
) -> Result<Answer, StoreFault>
    requires { All IsRow rows.items }
    ensures answers { (files : LoadFiles) (file bytes : Items ℕ) (e : ℕ × ATable) (state : State) → IsState ⟦<D as Disk>⟧ store.old disk.old state → IsLoadable state files table.now file bytes e → Loads e.1.columns bytes (Load.Rows rows.items)
        → Answers ⟦<D as Disk>⟧ files (Statement.Copy table.now file) store.new disk.old disk.new result state }
    ensures named { IfErr result (NamesHeld ⟦<D as Disk>⟧ store.new disk.new) }
    ensures cause { HasCause StoreFault.Disk (D.faults disk.old) (D.faults disk.new) result }
{
    every_image_reopens::<D>();
    frames_are_of_the_state::<D>();
    rows_decide_nothing_here();
    match load_refusal(&store.frame(), table, rows.as_slice()) {
        Some(refusal) => in_memory(refused(alloc, refusal)),
        None => commit_rows(alloc, store, table, rows, disk),
    }
}

/// COPY of a load file of these bytes into the table of a name, at its place.
fn load_bytes<D: Disk>(
    alloc: Global,
    store: &mut Store,
    table: &[u8],
    place: usize,
    bytes: &[u8],
    disk: &mut D,
) -> Result<Answer, StoreFault>
    requires { table_place table.now (frame_of store.old).database.tables ≡ Some place }
    ensures answers { (files : LoadFiles) (file : Items ℕ) (state : State) → IsState ⟦<D as Disk>⟧ store.old disk.old state → locked state table.now false ≡ None → files file ≡ Some bytes.now → is_large_file bytes.now ≡ false
        → Answers ⟦<D as Disk>⟧ files (Statement.Copy table.now file) store.new disk.old disk.new result state }
    ensures named { IfErr result (NamesHeld ⟦<D as Disk>⟧ store.new disk.new) }
    ensures cause { HasCause StoreFault.Disk (D.faults disk.old) (D.faults disk.new) result }
{
    every_image_reopens::<D>();
    frames_are_of_the_state::<D>();
    rows_decide_nothing_here();
    loaded_rows_fit();
    let columns = match columns_of(alloc, store.tables(), place) {
        Ok(columns) => columns,
        Err(AllocError) => return Err(StoreFault::Memory),
    };
    match read(alloc, bytes, columns.as_slice()) {
        Ok(rows) => load_rows(alloc, store, table, rows, disk),
        Err(LoadFault::Bad { line, field }) => {
            in_memory(refused(alloc, Refusal::BadLoadLine(line, field)))
        }
        Err(LoadFault::Memory) => Err(StoreFault::Memory),
    }
}

/// COPY into the table of a name, at its place.
fn load_file<F: Files, D: Disk>(
    alloc: Global,
    store: &mut Store,
    table: &[u8],
    place: usize,
    file: &Text,
    files: &mut F,
    disk: &mut D,
) -> Result<Answer, StepFault>
    requires place { table_place table.now (frame_of store.old).database.tables ≡ Some place }
    requires free { locked (frame_of store.old) table.now false ≡ None }
    ensures steps { (text : Items ℕ) (there : LoadFiles) (state : State) → Spells (symbols_of text) (Statement.Copy table.now file.now) → F.content files.old ≡ Some there → IsState ⟦<D as Disk>⟧ store.old disk.old state
        → Steps ⟦<D as Disk>⟧ there text store.new disk.old disk.new result state }
    ensures content { F.content files.new ≡ F.content files.old }
    ensures read { HasCause StepFault.Read (F.faults files.old) (F.faults files.new) result }
    ensures named { IfErr result (NamesStepped ⟦<D as Disk>⟧ store.new disk.new) }
    ensures cause { HasCause StepFault.Disk (D.faults disk.old) (D.faults disk.new) result }
{
    every_image_reopens::<D>();
    frames_are_of_the_state::<D>();
    rows_decide_nothing_here();
    match files.read(alloc, file.as_str(), MOST_BYTES) {
        Ok(Got::Whole(bytes)) => of_text(load_bytes(
            alloc,
            store,
            table,
            place,
            bytes.as_slice(),
            disk,
        )),
        Ok(Got::Absent) => of_text(in_memory(refused(alloc, Refusal::NoFile))),
        Ok(Got::TooLong) => of_text(in_memory(refused(alloc, Refusal::FileTooLarge))),
        Err(FilesFault::Failed) => Err(StepFault::Read),
        Err(FilesFault::Memory) => Err(StepFault::Memory),
    }
}

/// COPY.
pub fn copy<F: Files, D: Disk>(
    alloc: Global,
    store: &mut Store,
    table: &Name,
    file: &Text,
    files: &mut F,
    disk: &mut D,
) -> Result<Answer, StepFault>
    ensures steps { (text : Items ℕ) (there : LoadFiles) (state : State) → Spells (symbols_of text) (Statement.Copy table.now file.now) → F.content files.old ≡ Some there → IsState ⟦<D as Disk>⟧ store.old disk.old state
        → Steps ⟦<D as Disk>⟧ there text store.new disk.old disk.new result state }
    ensures content { F.content files.new ≡ F.content files.old }
    ensures read { HasCause StepFault.Read (F.faults files.old) (F.faults files.new) result }
    ensures named { IfErr result (NamesStepped ⟦<D as Disk>⟧ store.new disk.new) }
    ensures cause { HasCause StepFault.Disk (D.faults disk.old) (D.faults disk.new) result }
{
    every_image_reopens::<D>();
    frames_are_of_the_state::<D>();
    early_refusals_stand();
    match loadable_table(alloc, &store.frame(), table) {
        Ok(place) => load_file(alloc, store, table.as_slice(), place, file, files, disk),
        Err(fault) => of_text(in_memory(unplanned(alloc, fault))),
    }
}
