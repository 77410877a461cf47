//! What it means to be the words of a command.

ghost use Rattle.std.specs.Prelude.{◌≡◌, ◌↔◌, ◌∷◌, ◌-◌, ◌^◌, [], ℕ, List, Ok, Err, codes, map};
ghost use Rattle.uaset.specs.declared.words.Command.{Command};
ghost use Rattle.uaset.specs.Words.{Row, command_of, read_row, read_rows, rows};
ghost use Rattle.uaset.specs.Spelling.{FitsAny, IsPlace, SpellsAny, pair_row, words_of};

/// Of any rows, with numbers in them or without: what is read is spelled by one of them; where nothing is read, none
/// spells the words, and the place is that of the first word that fits none of the rows, or the count of the words.
pub(crate) fn rows_are_read<A: Drop>()
    ensures spelled { (table : List (Row A)) (words : List (List ℕ)) (said : A) → read_rows table words ≡ Ok said
        → SpellsAny table words said }
    ensures refused { (table : List (Row A)) (words : List (List ℕ)) (place : ℕ) (said : A)
        → read_rows table words ≡ Err place → ¬ SpellsAny table words said }
    ensures place { (row : Row A) (table : List (Row A)) (words : List (List ℕ)) (place : ℕ)
        → read_rows (row ∷ table) words ≡ Err place → IsPlace (λ front. FitsAny front (row ∷ table)) words place }
{}

/// The words are a command's exactly where they are read as it; else the place is that of the first word with which
/// they begin no command's words, or their count.
pub(crate) fn commands_are_read()
    ensures words { (words : List (List ℕ)) (c : Command) → (command_of words ≡ Ok c) ↔ (words ≡ words_of c) }
    ensures place { (words : List (List ℕ)) (place : ℕ) → command_of words ≡ Err place
        → IsPlace (λ front. FitsAny front rows) words place }
{}

/// What a row of a word and two numbers reads: each number up to both its edges, and the place of what is no numeral,
/// of a number beyond its edge, of a word too many, and of an early end.
pub(crate) fn worked_rows_are_read()
    ensures least { read_row pair_row 0 (codes "pair" ∷ codes "0" ∷ codes "3" ∷ []) ≡ Ok (0, 3) }
    ensures most { read_row pair_row 0 (codes "pair" ∷ codes "18446744073709551615" ∷ codes "200000" ∷ [])
        ≡ Ok (2 ^ 64 - 1, 200000) }
    ensures early { map (read_row pair_row 0) ([] ∷ (codes "pair" ∷ []) ∷ (codes "pair" ∷ codes "5" ∷ []) ∷ [])
        ≡ Err 0 ∷ Err 1 ∷ Err 2 ∷ [] }
    ensures beyond { map (λ word. read_row pair_row 0 (codes "pair" ∷ codes "5" ∷ word ∷ []))
        (codes "2" ∷ codes "200001" ∷ []) ≡ Err 2 ∷ Err 2 ∷ [] }
    ensures faulty { map (λ word. read_row pair_row 0 (codes "pair" ∷ word ∷ codes "3" ∷ []))
        (codes "18446744073709551616" ∷ codes "05" ∷ codes "+5" ∷ codes "-5" ∷ codes "5 " ∷ codes "x" ∷ [] ∷ [])
        ≡ Err 1 ∷ Err 1 ∷ Err 1 ∷ Err 1 ∷ Err 1 ∷ Err 1 ∷ Err 1 ∷ [] }
    ensures more { read_row pair_row 0 (codes "pair" ∷ codes "5" ∷ codes "3" ∷ codes "x" ∷ []) ≡ Err 3 }
{}
