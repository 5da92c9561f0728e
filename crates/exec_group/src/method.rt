/// How the groups of rows are found: by a hash table of their keys, or in one pass over rows whose keys ascend.
#[derive(Clone, Copy, Debug, PartialEq, Eq)]
pub enum GroupMethod {
    Hash,
    Sorted,
}
