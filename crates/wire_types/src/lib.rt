//! The primitives of Kafka's wire format: what bytes spell, how they are read and written, and the values
//! that messages are made of.
//!
//! The Kafka protocol guide names the primitives (`INT32`, `COMPACT_STRING`, ..); `specs/Schema.antt` has a
//! grammar for each.
#![tactic(auto)]

mod arrays;
mod blobs;
mod block;
mod boxed;
mod budget;
mod counts;
mod cursor;
mod error_code;
mod fault;
mod flexible;
mod items;
mod laws;
mod numbers;
mod pieces;
mod shared;
mod shared_bytes;
mod tags;
mod text;
mod texts;
mod topic;
mod varints;
mod wire;

pub use arrays::{
    deduct_array, deduct_compact_array, deduct_compact_nullable_array, deduct_nullable_array,
    deduct_varint_array, read_all, read_array, read_compact_array, read_compact_nullable_array,
    read_nullable_array, read_varint_array, write_array, write_compact_array,
    write_compact_nullable_array, write_nullable_array, write_varint_array,
};
pub use blobs::{
    deduct_bytes, deduct_compact_bytes, deduct_compact_nullable_bytes, deduct_nullable_bytes,
    deduct_varint_bytes, deduct_varint_nullable_bytes, write_bytes, write_compact_bytes,
    write_compact_nullable_bytes, write_nullable_bytes, write_varint_bytes,
    write_varint_nullable_bytes,
};
pub use block::Block;
pub use boxed::Boxed;
pub use budget::deduct;
pub use counts::{write_compact_count, write_count, write_varint_count};
pub use cursor::Cursor;
pub use error_code::ErrorCode;
pub use fault::{Malformed, ReadFault, WriteFault};
pub use flexible::{
    deduct_flexible_topics, deduct_nullable_flexible_topics, read_flexible_topics,
    read_nullable_flexible_topics, write_flexible_topics, write_nullable_flexible_topics,
};
pub use items::Items;
pub use laws::{found_is_spelled, one_value, read_fits, spelled_is_found, written_is_spelled};
pub use numbers::{write_bool, write_i8, write_i16, write_i32, write_i64, write_u32};
pub use pieces::{Piece, Pieces, deduct_pieces, write_pieces};
pub use shared::Shared;
pub use shared_bytes::Bytes;
pub use tags::write_no_tags;
pub use text::Text;
pub use texts::{
    deduct_compact_nullable, deduct_compact_string, deduct_nullable, deduct_string,
    write_compact_nullable, write_compact_string, write_nullable, write_string,
};
pub use topic::Topic;
pub use varints::{deduct_varint, deduct_varlong, write_uvarint, write_varint, write_varlong};
pub use wire::{Wire, size};
