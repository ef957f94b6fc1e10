//! What is so of a call that is made in parts.
#![tactic(auto)]

mod laws;

pub use laws::{
    items_have_so_many_numbers, longer_exchanges_give_what_one_call_gives,
    longer_reductions_give_what_one_call_gives, numbers_of_parts_are_put_together,
    one_call_is_fine_where_a_part_is, parts_give_what_one_call_gives,
    parts_of_exchanges_give_what_one_call_gives,
};
