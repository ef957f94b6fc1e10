//! What follows from the contracts of both ways, as a call that does nothing.
ghost use Rattle.std.specs.Prelude.{◌≡◌, List, Result, false, length, ℕ};
ghost use Rattle.mpx_board.specs.Looks.{parts_of};
ghost use Rattle.mpx_board.specs.declared.board.Board.{Board};
ghost use Rattle.mpx_format.specs.declared.defects.WireError.{WireError};
ghost use Rattle.mpx_format.specs.declared.versions.Version.{Version};
ghost use Rattle.mpx_format.specs.declared.versions.Version.TheVariants.{Two};
ghost use Rattle.mpx_format.specs.Decoding.{Decodes, Spells, decoded};
ghost use Rattle.mpx_format.specs.Encoding.{is_too_long, length_told};
ghost use Rattle.mpx_wire.specs.Reading.{IsReadBack};

/// What `encode` writes of a board (its clause `spelled`), or another process in version 1, `decode` reads back as that board,
/// unless memory runs out (its clause `exact`). And where `decode` found a board in version 2 (`found`), `encode` writes the
/// same bytes of it, and doesn't refuse it as too long (`too_long`); `frame_len` tells how many they are. (Of a board in a
/// frame of version 1 it writes a byte more for each context, and so may refuse it.)
pub fn boards_are_read_back()
    ensures read { (board : Board) (version : Version) (bytes : List ℕ) (answer : Result Board WireError) → Spells version bytes (parts_of board) → Decodes answer (decoded bytes) → IsReadBack board answer }
    ensures written { (board : Board) (bytes again : List ℕ) → Spells Two bytes (parts_of board) → Spells Two again (parts_of board) → again ≡ bytes }
    ensures short { (board : Board) (bytes : List ℕ) → Spells Two bytes (parts_of board) → is_too_long (parts_of board) ≡ false }
    ensures length { (board : Board) (bytes : List ℕ) → Spells Two bytes (parts_of board) → length_told (parts_of board) ≡ length bytes }
{}
