//! From boards to frames. Which bytes spell a board is said in `mpx_format`; [`encode_rope`] writes them, [`encode`] all in one place, and
//! [`frame_len`] tells how many there are. [`encode_over`] copies what [`keep`] has kept of acknowledgements as they are spelled.
#![tactic(auto)]

mod encoding;
mod room;
mod write_births;
mod write_codes;
mod write_contexts;
mod write_entries;
mod write_items;
mod write_kept;
mod write_makings;
mod write_names;
mod write_numbers;
mod write_posts;
mod write_process_numbers;

pub use encoding::{EncodeError, encode, encode_over, encode_rope, frame_len};
pub use write_kept::keep;
