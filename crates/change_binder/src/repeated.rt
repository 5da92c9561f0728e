ghost use Rattle.std.specs.Prelude.{◌≡◌, [], option_map, take, drop, bytes_eq};
ghost use Rattle.std.specs.List.{list_any};
ghost use Rattle.sql_binding.specs.Changes.{set_twice_behind};
ghost use Rattle.sql_binding.specs.Projections.{has_twice};

use col_value::Name;
use sql_tree::Setting;

/// The first column that was set before.
#[tactic(auto, using(crate::proofs::Settled::set_passed, crate::proofs::Settled::set_found))]
pub(crate) fn set_twice(settings: &[Setting]) -> Option<&[u8]>
    ensures { option_map (λ n. n.now) result ≡ set_twice_behind [] settings.now }
{
    for (i, setting) in settings.iter().enumerate() {
        if is_set_before(settings, i, setting) {
            return Some(setting.column.as_slice());
        }
    }
    None
}

/// Whether one of the first `i` settings sets the same column.
fn is_set_before(settings: &[Setting], i: usize, setting: &Setting) -> bool
    ensures { result ≡ list_any (λ s. bytes_eq s.column setting.now.column) (take i settings.now) }
{
    is_column_before(settings, i, setting.column.as_slice())
}

fn is_column_before(settings: &[Setting], i: usize, name: &[u8]) -> bool
    ensures { result ≡ list_any (λ s. bytes_eq s.column name.now) (take i settings.now) }
{
    settings.iter().take(i).any(|s| s.column.as_slice() == name)
}

/// Whether a name stands twice.
pub(crate) fn has_twice(names: &[Name]) -> bool
    ensures { result ≡ has_twice names.now }
{
    for (i, name) in names.iter().enumerate() {
        if is_behind(names, i + 1, name) {
            return true;
        }
    }
    false
}

/// Whether the name stands behind the first `from` names.
fn is_behind(names: &[Name], from: usize, name: &Name) -> bool
    ensures { result ≡ list_any (λ n. bytes_eq n name.now) (drop from names.now) }
{
    is_name_behind(names, from, name.as_slice())
}

fn is_name_behind(names: &[Name], from: usize, name: &[u8]) -> bool
    ensures { result ≡ list_any (λ n. bytes_eq n name.now) (drop from names.now) }
{
    names.iter().skip(from).any(|n| n.as_slice() == name)
}
