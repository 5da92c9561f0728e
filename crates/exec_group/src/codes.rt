//! Codes of rows that stand in columns: rows of one code have one key.

ghost use Rattle.std.specs.Prelude.{◌≡◌, ℕ, ◌+◌, ◌*◌, ◌<◌, ◌≤◌, get_or, slice_index_or};
ghost use Rattle.std.specs.List.{All};
ghost use Rattle.std.specs.Option.{IfSome};
ghost use Rattle.col_value.specs.declared.value.Value.TheVariants.{Null};
ghost use Rattle.sql_bound.specs.Outputs.{keys_of};
ghost use Rattle.exec_group.specs.Codes.{lane_within, pair_within, Tells};
ghost use Rattle.exec_group.specs.Columns.{row_of};

use block_codec::Block;

/// So many codes at the most are told apart.
pub const MOST: usize = 4096;

/// Gives each place a code, which is less than how many codes there are.
pub trait Codes: Drop {
    ghost code: { Self → ℕ → ℕ };

    ghost size: { Self → ℕ };

    /// How many codes there are.
    fn size(&self) -> usize
        ensures { result ≡ size self.now };

    /// The code of a place.
    fn code(&self, place: usize) -> usize
        ensures is { result ≡ code self.now place }
        ensures within { result < size self.now };

    ghost within: { (codes : Self) (place : ℕ) → code codes place < size codes };
}

/// The codes of the words of a column; NULL behind its last value has one more.
#[derive(Drop)]
pub struct Words<'a> {
    places: &'a [u64],
    words: usize,
    ghost within: { All (λ c. c < words) places.now },
    ghost few: { words < 4096 },
}

/// A code for each pair of codes.
#[derive(Drop)]
pub struct Pairs<A: Codes, B: Codes> {
    left: A,
    right: B,
    width: usize,
    ghost width_is: { width ≡ B.size right },
    ghost few: { A.size left * width ≤ 4096 },
}

impl Codes for Words<'_> {
    ghost code = { λ w p. get_or w.places.now p w.words };

    ghost size = { λ w. w.words + 1 };

    ghost within = { λ w p. lane_within w.places.now w.words w.within p };

    fn size(&self) -> usize {
        self.words + 1
    }

    fn code(&self, place: usize) -> usize {
        match self.places.get(place) {
            Some(code) => *code as usize,
            None => self.words,
        }
    }
}

impl<A: Codes, B: Codes> Codes for Pairs<A, B> {
    ghost code = { λ c p. A.code c.left p * c.width + B.code c.right p };

    ghost size = { λ c. A.size c.left * c.width };

    ghost within = { λ c p. pair_within (A.code c.left p) (A.size c.left) (B.code c.right p) (B.size c.right) c.width c.width_is (A.within c.left p) (B.within c.right p) };

    fn size(&self) -> usize {
        self.left.size() * self.width
    }

    fn code(&self, place: usize) -> usize {
        self.left.code(place) * self.width + self.right.code(place)
    }
}

impl<A: Codes, B: Codes> Pairs<A, B> {
    /// The pairs, where they are few.
    pub fn of(left: A, right: B) -> Option<Pairs<A, B>>
        ensures left { IfSome result (λ c. Tells (⟦<Pairs<A, B> as Codes>⟧.code c) (A.code left)) }
        ensures right { IfSome result (λ c. Tells (⟦<Pairs<A, B> as Codes>⟧.code c) (B.code right)) }
    {
        let width = right.size();
        match left.size().checked_mul(width) {
            Some(size) if size <= MOST => Some(Pairs { left, right, width }),
            _ => None,
        }
    }
}

impl<'a> Words<'a> {
    /// The codes of so many words, whose places these are, where they are few.
    pub fn of(places: &'a [u64], words: usize) -> Option<Words<'a>>
        requires { All (λ c. c < words) places.now }
        ensures { IfSome result (λ c. (p : ℕ) → ⟦<Words<'a> as Codes>⟧.code c p ≡ get_or places.now p words) }
    {
        if words < MOST {
            Some(Words { places, words })
        } else {
            None
        }
    }
}

/// The codes of a block that is held as words.
fn words_in<'a>(block: &'a Block) -> Option<Words<'a>>
    ensures { IfSome result (λ c. Tells (⟦<Words<'a> as Codes>⟧.code c) (λ p. slice_index_or block.now p Null)) }
{
    match block.coded() {
        Some((words, places)) => Words::of(places, words.len()),
        None => None,
    }
}

/// The codes of a column, where it is held as words or isn't there.
fn words_of<'a>(columns: &'a [Option<Block>], column: usize) -> Option<Words<'a>>
    ensures { IfSome result (λ c. Tells (⟦<Words<'a> as Codes>⟧.code c) (λ p. slice_index_or (row_of columns.now p) column Null)) }
{
    match columns.get(column) {
        Some(Some(block)) => words_in(block),
        Some(None) | None => Words::of(&[], 0),
    }
}

/// The codes of a key of one column.
pub fn codes_of_one<'a>(keys: &[usize], columns: &'a [Option<Block>]) -> Option<Words<'a>>
    ensures { IfSome result (λ c. Tells (⟦<Words<'a> as Codes>⟧.code c) (λ p. keys_of keys.now (row_of columns.now p))) }
{
    match keys {
        [column] => words_of(columns, *column),
        _ => None,
    }
}

/// The codes of a key of two columns.
pub fn codes_of_two<'a>(
    keys: &[usize],
    columns: &'a [Option<Block>],
) -> Option<Pairs<Words<'a>, Words<'a>>>
    ensures { IfSome result (λ c. Tells (⟦<Pairs<Words<'a>, Words<'a>> as Codes>⟧.code c) (λ p. keys_of keys.now (row_of columns.now p))) }
{
    match keys {
        [first, second] => match words_of(columns, *first) {
            Some(left) => match words_of(columns, *second) {
                Some(right) => Pairs::of(left, right),
                None => None,
            },
            None => None,
        },
        _ => None,
    }
}
