//! What the format promises of two rows, of two lists of rows, and of two tables.

ghost use Rattle.std.specs.Prelude.{◌≡◌, ◌<◌, ◌^◌, ℕ, List, ◌++◌, length, map};
ghost use Rattle.cue_row.specs.declared.parts.RowParts.{RowParts as Row};
ghost use Rattle.cue_codec.specs.declared.version.Version.{Version};
ghost use Rattle.cue_codec.specs.Entry.{Entry, entries_of, entry_of_row, without_index};
ghost use Rattle.cue_codec.specs.KindBytes.{AreBytesOfKinds};
ghost use Rattle.cue_codec.specs.Reading.{AreCounted};
ghost use Rattle.cue_codec.specs.RowBytes.{row_bytes, IsStateRow};
ghost use Rattle.cue_codec.specs.State.{state_bytes, IsTableBytes};
ghost use Rattle.cue_table.specs.Slots.{rows_of};
ghost use Rattle.cue_table.specs.Tree.{Tree};
ghost use Rattle.cue_table.specs.Valid.{IsValidTable};

/// In each version a row of a kind is written as its path, its level, the number of its kind, and
/// what the kind leaves open. It computes nothing: it states a law.
pub fn bytes_of_kinds()
    ensures { AreBytesOfKinds }
{}

/// In each version the entries of a table are its rows in their order, with their places as they
/// are told. It computes nothing: it states a law.
pub fn law_of_entries()
    ensures { (version : Version) (tree : Tree Row) →
        map without_index (entries_of version tree) ≡ map entry_of_row (rows_of tree) }
{}

/// In each version the bytes of a row in front tell the row and what stands after it. It computes
/// nothing: it states a law.
pub fn one_row_spelling()
    ensures { (version : Version) (a b : Entry) (r s : List ℕ) →
        IsStateRow version a → IsStateRow version b →
        row_bytes version a ++ r ≡ row_bytes version b ++ s →
        (a ≡ b) × (r ≡ s) }
{}

/// Rows with the same state bytes, in one version, are the same. It computes nothing: it states a
/// law.
pub fn one_state_spelling()
    ensures { (version : Version) (a b : List Entry) →
        AreCounted (IsStateRow version) a → AreCounted (IsStateRow version) b →
        state_bytes version a ≡ state_bytes version b → a ≡ b }
{}

/// No two valid tables share bytes, in whichever versions, of any number that a memory can hold. It
/// computes nothing: it states a law.
pub fn one_table_spelling()
    ensures { (a b : Tree Row) (bytes : List ℕ) → IsValidTable a → IsValidTable b →
        length bytes < 2 ^ 64 → IsTableBytes bytes a → IsTableBytes bytes b → a ≡ b }
{}
