//! The body of a catalogue version: all of its bytes.

ghost use Rattle.std.specs.Prelude.{◌≡◌, ◌↔◌, IfOk, IfSome, IfNone, List, ℕ};
ghost use Rattle.catalog_types.specs.declared.catalogue.Catalogue.{Catalogue as Logical};
ghost use Rattle.catalog_bytes.specs.declared.form.Form.TheVariants.{One, Two};
ghost use Rattle.catalog_types.specs.Valid.{IsValid};
ghost use Rattle.catalog_bytes.specs.Spelling.{spelling, Fits, Spells, IsOld};
ghost use Rattle.col_bytes.specs.Parts.{Gives};
ghost use Rattle.catalog_bytes.specs.Fronts.{behind_name, form_at, catalogue_at, all_of, IfValid};

use crate::form::Form;
use crate::leaves::put_number;
use crate::part::{put_list, read_list};
use catalog_types::Catalogue;
use col_bytes::{Stop, read_vint};
use std::alloc::{AllocError, Global};

/// `VCAT`, and the version of the format.
const HEAD: [u8; 5] = [86, 67, 65, 84, 2];

/// The bytes of a catalogue, of version 2: `VCAT`, the version 02, then as varints the last epoch, the ancient history mark
/// and the next free number, then the tables. A list is the varint of its length and its items. A table is its
/// name, its columns and its projections; a column its name, its kind (01 INTEGER, 02 and a varint VARCHAR, 03
/// BOOLEAN, 04 DATE) and its not-null byte; a projection its name, its columns (the varint of the ordinal, the byte
/// of the encoding, 00 for AUTO, and 00 for no default or 01 and the value), its sort places, the byte whether it is up to date, its
/// epoch, how many containers were made, and its containers; a container eight varints, 0 for no delete vector, the
/// last of them how many columns it stores.
pub fn to_bytes(alloc: Global, c: &Catalogue) -> Result<Vec<u8>, AllocError>
    requires { IsValid c.now }
    ensures spelled { IfOk result (λ v. v.items ≡ spelling Two c.now) }
    ensures small { IfOk result (λ _. Fits Two c.now) }
{
    let mut out = Vec::new(alloc);
    out.extend_from_slice(&HEAD)?;
    put_number(&mut out, c.last)?;
    put_number(&mut out, c.ahm)?;
    put_number(&mut out, c.next)?;
    put_list(&mut out, c.tables.as_slice())?;
    Ok(out)
}

fn behind(bytes: &[u8]) -> Result<&[u8], Stop>
    ensures { Gives (λ x. x.now) result (behind_name bytes.now) }
{
    match bytes {
        [86, 67, 65, 84, rest @ ..] => Ok(rest),
        _ => Err(Stop::Malformed),
    }
}

fn form_of(bytes: &[u8]) -> Result<(Form, &[u8]), Stop>
    ensures { Gives (λ x. (x.0, x.1.now)) result (form_at bytes.now) }
{
    match bytes {
        [1, rest @ ..] => Ok((Form::One(0), rest)),
        [2, rest @ ..] => Ok((Form::Two, rest)),
        _ => Err(Stop::Malformed),
    }
}

#[tactic(auto, unfolding(crate::specs::Fronts::catalogue_at))]
fn catalogue_of(alloc: Global, form: Form, bytes: &[u8]) -> Result<(Catalogue, &[u8]), Stop>
    ensures { Gives (λ x. (x.0, x.1.now)) result (catalogue_at form bytes.now) }
{
    let (last, rest) = read_vint(bytes)?;
    let (ahm, rest) = read_vint(rest)?;
    let (next, rest) = read_vint(rest)?;
    let (tables, rest) = read_list(alloc, form, rest)?;
    Ok((
        Catalogue {
            last,
            ahm,
            next,
            tables,
        },
        rest,
    ))
}

#[tactic(auto, unfolding(crate::specs::Fronts::all_of))]
fn all(alloc: Global, bytes: &[u8]) -> Result<Catalogue, Stop>
    ensures { Gives (λ x. x) result (all_of bytes.now) }
{
    let rest = behind(bytes)?;
    let (form, rest) = form_of(rest)?;
    let (c, rest) = catalogue_of(alloc, form, rest)?;
    if rest.is_empty() {
        Ok(c)
    } else {
        Err(Stop::Malformed)
    }
}

/// The catalogue, if it is valid.
fn if_valid(c: Catalogue) -> Option<Catalogue>
    ensures { IfValid c result }
{
    if c.valid() { Some(c) } else { None }
}

/// The valid catalogue that all of the bytes spell, in version 1 or 2. None exactly where they spell none.
pub fn from_bytes(alloc: Global, bytes: &[u8]) -> Result<Option<Catalogue>, AllocError>
    ensures found { IfOk result (λ r. IfSome r (λ c. IsValid c × Spells bytes.now c)) }
    ensures none { IfOk result (λ r. IfNone r ((c : Logical) → IsValid c → Spells bytes.now c → ⊥)) }
{
    match all(alloc, bytes) {
        Ok(c) => Ok(if_valid(c)),
        Err(Stop::Malformed) => Ok(None),
        Err(Stop::Memory) => Err(AllocError),
    }
}

/// Bytes spell at most one catalogue, of whichever version.
pub fn one_catalogue()
    ensures { (bytes : List ℕ) (c d : Logical) → Spells bytes c → Spells bytes d → c ≡ d }
{}

/// Of the catalogues that have a spelling of version 2, those have one of version 1 in which no column has a default and each
/// container stores all columns.
pub fn which_have_version_one()
    ensures { (c : Logical) → Fits Two c → (Fits (One 0) c ↔ IsOld c) }
{}
