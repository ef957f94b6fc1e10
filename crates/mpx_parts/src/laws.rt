//! What is so of a call that is made in parts.
ghost use Rattle.std.specs.Prelude.{◌≡◌, ◌<◌, List, length, map, ℕ};
ghost use Rattle.std.specs.List.{All, flat_map};
ghost use Rattle.mpx_num.specs.declared.own.Operation.{Operation};
ghost use Rattle.mpx_kind.specs.declared.kinds.Exchange.{Exchange};
ghost use Rattle.mpx_kind.specs.declared.kinds.Reduction.{Reduction};
ghost use Rattle.mpx_post.specs.Rows.{RowView};
ghost use Rattle.mpx_call.specs.Pairs.{both_numbers};
ghost use Rattle.mpx_call.specs.Parts.{Part, put_together};
ghost use Rattle.mpx_post.specs.Agreement.{IsFine, first_of};
ghost use Rattle.mpx_post.specs.Posts.{type_of};
ghost use Rattle.mpx_num.specs.Types.{item_len};
ghost use Rattle.mpx_fold.specs.Folds.{fold_of};
ghost use Rattle.mpx_move.specs.Moves.{move_of};
ghost use Rattle.mpx_parts.specs.Exchanges.{HasEqualBlocks, IsPutTogether, blocks_got};
ghost use Rattle.mpx_parts.specs.Meeting.{MeetInExchange, MeetInReduction};
ghost use Rattle.mpx_parts.specs.Numbers.{AreOfEach, IsOfBlocks};
ghost use Rattle.mpx_parts.specs.OneCall.{IsOfCount};
ghost use Rattle.mpx_parts.specs.Rows.{GivesOfEach, IsCutInto, value_numbers};

use mpx_call::Item;
use mpx_num::Integer;

/// What a reduction or a scan gives for the parts of its items, one after the other, is what it gives for all items at once.
pub fn parts_give_what_one_call_gives()
    ensures { (ops : List Operation) (reduction : Reduction) (row : RowView) (parts : List RowView) (rank : ℕ) → GivesOfEach reduction → IsCutInto row parts → rank < length row → value_numbers (fold_of ops reduction row rank) ≡ flat_map (λ (part : RowView). value_numbers (fold_of ops reduction part rank)) parts }
{}

/// What an exchange of equal blocks gives for the parts of its blocks, put together block by block, is what it gives for whole blocks at once.
pub fn parts_of_exchanges_give_what_one_call_gives()
    ensures { (exchange : Exchange) (row : RowView) (parts : List RowView) (rank : ℕ) → HasEqualBlocks exchange → IsPutTogether exchange row parts → rank < length row → value_numbers (move_of exchange row rank) ≡ put_together (blocks_got exchange (length row)) (map (λ (part : RowView). value_numbers (move_of exchange part rank)) parts) }
{}

/// The one call of whole blocks is fine where one of its parts is, and all ranks give blocks of one count.
pub fn one_call_is_fine_where_a_part_is()
    ensures { (exchange : Exchange) (count : ℕ) (row part : RowView) → HasEqualBlocks exchange → IsOfCount exchange count row part → IsFine row }
{}

/// The numbers of lists that are put together are their numbers, put together.
pub fn numbers_of_parts_are_put_together<T: Item>()
    ensures { (each blocks : ℕ) (lists : List (List T)) → AreOfEach each T.numbers → All (IsOfBlocks blocks) lists → T.numbers (put_together blocks lists) ≡ put_together blocks (map T.numbers lists) }
{}

/// The numbers of a list of integers are one of each, and those of a list of pairs two.
pub fn items_have_so_many_numbers<T: Integer>()
    ensures integers { AreOfEach 1 (map T.value) }
    ensures pairs { AreOfEach 2 (λ (pairs : List (T × T)). map T.value (both_numbers pairs)) }
{}

/// What a rank's longer exchange gives it, which it made in parts as the others did, is what one call gives it.
pub fn longer_exchanges_give_what_one_call_gives<T: Item>()
    ensures { (most count : ℕ) (exchange : Exchange) (row : RowView) (rows : List RowView) (items list : ℕ → List T) (parts : ℕ → List (Part T)) (rank : ℕ) → HasEqualBlocks exchange → AreOfEach (item_len (type_of (first_of row))) T.numbers → MeetInExchange T.numbers most count exchange row rows items list parts → rank < length row → T.numbers (list rank) ≡ value_numbers (move_of exchange row rank) }
{}

/// What a rank's longer reduction or scan gives it, which it made in parts as the others did, is what one call gives it.
pub fn longer_reductions_give_what_one_call_gives<T: Item>()
    ensures { (each most count : ℕ) (ops : List Operation) (reduction : Reduction) (row : RowView) (rows : List RowView) (items list : ℕ → List T) (parts : ℕ → List (Part T)) (rank : ℕ) → GivesOfEach reduction → AreOfEach each T.numbers → MeetInReduction T.numbers most count ops reduction row rows items list parts → rank < length row → T.numbers (list rank) ≡ value_numbers (fold_of ops reduction row rank) }
{}
