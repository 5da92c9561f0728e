//! Laws of the words.

ghost use Rattle.std.specs.Prelude.{ℕ, ◌≡◌, List, Some, codes};
ghost use Rattle.clap.specs.Words.{first_of, matches_of};
ghost use Rattle.run_words.specs.Command.{vert};
ghost use Rattle.run_words.specs.Words.{Wanted, dir_of_words, wanted};

/// Where the words are of the form, `dir_of` answers the word that clap takes for DIR.
pub fn dir_is_the_one_that_clap_takes()
    ensures { (words : List (List ℕ)) (w : Wanted) → wanted words ≡ Some w → dir_of_words words ≡ first_of (codes "dir") (matches_of vert words) }
{}
