//! Zlib streams (RFC 1950), whose data is compressed by Deflate (RFC 1951).
//!
//! [`inflate`] decompresses any stream without a preset dictionary. [`deflate`] compresses bytes by their frequency alone, which
//! suits the V2 bytes of histograms: they repeat few sequences.
#![tactic(auto)]

mod bit_writer;
mod bits;
mod block_code;
mod blocks;
mod checksum;
mod code_lens;
mod codes;
mod compress;
mod dynamic;
mod errors;
mod output;
mod runs;
mod stream;

pub use checksum::adler32;
pub use compress::{CompressionLevel, deflate};
pub use errors::InflateError;
pub use stream::inflate;
