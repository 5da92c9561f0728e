ghost use Rattle.std.specs.Prelude.{◌≡◌, option_map, find, position, bytes_eq, true};
ghost use Rattle.std.specs.Option.{option_map_or};
ghost use Rattle.sql_binding.specs.Sight.{seen_as, fits, fits_twice, place_of, is_grouped_by};

use col_value::{ColType, Column};
use sql_tree::ColRef;
use std::marker::Model;

/// A column of a FROM item, with the item's place among all and its name.
#[derive(Drop)]
pub struct SeenColumn<'a> {
    place: usize,
    item: &'a [u8],
    column: &'a Column,
}

impl<'a> Model for SeenColumn<'a> {
    ghost use Rattle.sql_binding.specs.Sight.{Seen};

    ghost Value = { Seen };

    ghost view = { λ s. record { place = s.place; item = s.item.now; column = s.column.now } };
}

impl<'a> SeenColumn<'a> {
    /// A column of the item at this place.
    pub(crate) fn new(place: usize, item: &'a [u8], column: &'a Column) -> SeenColumn<'a>
        ensures { result ≡ seen_as place item.now column.now }
    {
        SeenColumn {
            place,
            item,
            column,
        }
    }

    /// The column's name.
    pub fn name(&self) -> &'a [u8]
        ensures { result.now ≡ self.now.column.name }
    {
        self.column.name.as_slice()
    }

    /// The column's type.
    pub fn kind(&self) -> ColType
        ensures { result ≡ self.now.column.kind }
    {
        self.column.kind
    }

    /// Whether a name fits it; `last` is the place of the last FROM item that is in reach.
    pub(crate) fn fits(&self, last: usize, name: &ColRef) -> bool
        ensures { result ≡ fits last name.now self.now }
    {
        self.place <= last
            && self.column.name.as_slice() == name.name.as_slice()
            && is_of_item(self.item, name)
    }

    /// Whether a name of GROUP BY fits it.
    pub(crate) fn is_grouped_by(&self, last: usize, group: &[ColRef]) -> bool
        ensures { result ≡ is_grouped_by last group.now self.now }
    {
        group.iter().any(|g| self.fits(last, g))
    }
}

/// Whether the name has no qualifier, or this one.
fn is_of_item(item: &[u8], name: &ColRef) -> bool
    ensures { result ≡ option_map_or (λ q. bytes_eq q item.now) name.now.qualifier true }
{
    match &name.qualifier {
        Some(qualifier) => qualifier.as_slice() == item,
        None => true,
    }
}

/// The first column that a name fits.
pub(crate) fn first_fit<'s, 'a>(
    seen: &'s [SeenColumn<'a>],
    last: usize,
    name: &ColRef,
) -> Option<&'s SeenColumn<'a>>
    ensures { option_map (λ s. s.now) result ≡ find (fits last name.now) seen.now }
{
    seen.iter().find(|s| s.fits(last, name))
}

/// Whether a name fits two columns.
pub(crate) fn fits_twice(seen: &[SeenColumn<'_>], last: usize, name: &ColRef) -> bool
    ensures { result ≡ fits_twice seen.now last name.now }
{
    seen.iter().filter(|s| s.fits(last, name)).count() > 1
}

/// The place of the first column that a name fits.
fn first_place(seen: &[SeenColumn<'_>], last: usize, name: &ColRef) -> Option<usize>
    ensures { result ≡ position (fits last name.now) seen.now }
{
    seen.iter().position(|s| s.fits(last, name))
}

/// The place of the column that a name stands for, 0 where it stands for none.
pub fn place_of(seen: &[SeenColumn<'_>], last: usize, name: &ColRef) -> usize
    ensures { result ≡ place_of seen.now last name.now }
{
    first_place(seen, last, name).unwrap_or(0)
}
